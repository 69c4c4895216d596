// THE CURSOR: where a query is read, and how many marks `!` and `(` are open there.
ghost use Rattle.std.specs.Prelude.{◌≡◌, ◌+◌, ◌-◌, ◌^◌, ◌≤◌, ◌<◌, leb, length, drop, get_or};
ghost use Rattle.query_text.specs.Grammar.{open_limit};
ghost use Rattle.query_text.specs.Reader.{starts};
ghost use Rattle.query_text.specs.InnerCursor.{cursor, starts_digit};

#[derive(Clone, Copy)]
pub struct Cursor {
    pub at: usize,
    pub marks: usize,
}

impl Cursor {
    // At most so many marks are open at once.
    pub const LIMIT: usize = 16;

    // Before the first byte, with no mark open.
    pub const FRESH: Cursor = Cursor { at: 0, marks: 0 };

    // Whether no further mark may be opened.
    pub fn is_full(self) -> bool
        ensures { result ≡ leb open_limit self.marks }
    {
        self.marks >= Self::LIMIT
    }

    // Whether a byte comes next.
    pub fn sees(self, bytes: &[u8], byte: u8) -> bool
        ensures { result ≡ starts byte (drop self.at bytes.now) }
    {
        self.at < bytes.len() && bytes[self.at] == byte
    }

    // Whether a digit comes next.
    pub fn sees_digit(self, bytes: &[u8]) -> bool
        ensures { result ≡ starts_digit (drop self.at bytes.now) }
    {
        self.at < bytes.len() && bytes[self.at].is_ascii_digit()
    }

    // The digit that comes next.
    pub fn digit(self, bytes: &[u8]) -> usize
        requires { (self.at < length bytes.now) × (48 ≤ get_or bytes.now self.at 0) }
        ensures { result ≡ get_or bytes.now self.at 0 - 48 }
    {
        usize::from(bytes[self.at] - b'0')
    }

    // Past a byte.
    pub fn next(self) -> Self
        requires { self.at + 1 < 2 ^ 64 }
        ensures { result ≡ cursor (self.at + 1) self.marks }
    {
        Cursor {
            at: self.at + 1,
            ..self
        }
    }

    // Past a mark, which is open from here.
    pub fn opened(self) -> Self
        requires { (self.at + 1 < 2 ^ 64) × (self.marks < open_limit) }
        ensures { result ≡ cursor (self.at + 1) (self.marks + 1) }
    {
        Cursor {
            at: self.at + 1,
            marks: self.marks + 1,
        }
    }

    // The last mark is shut.
    pub fn shut(self) -> Self
        requires { 0 < self.marks }
        ensures { result ≡ cursor self.at (self.marks - 1) }
    {
        Cursor {
            marks: self.marks - 1,
            ..self
        }
    }
}
