// One line: its words, and the edit that they are.
ghost use Rattle.std.specs.Prelude.{◌≡◌, ◌<◌, [], ◌∷◌};
ghost use Rattle.std.specs.Option.{MatchOption};
ghost use Rattle.edit_lines.specs.Parts.{words_of};
ghost use Rattle.edit_lines.specs.Making.{words_line, line_of};

use crate::Line;
use crate::scan::place_of;

const SPACE: u8 = 32;

// The first word and what is behind the space that follows it, or nothing where the text is one word.
fn first_word(text: &[u8]) -> Option<(&[u8], &[u8])>
    ensures { MatchOption result (words_of text.now ≡ text.now ∷ []) (λ cut. words_of text.now ≡ cut.0.now ∷ words_of cut.1.now) }
{
    let place = place_of(text, SPACE)?;
    Some((&text[..place], &text[place + 1..]))
}

// A line of three words.
fn remove_of(word: &[u8], start: &[u8], end: &[u8]) -> Option<Line>
    ensures { result ≡ words_line (word.now ∷ start.now ∷ end.now ∷ []) }
{
    if word != b"remove".as_slice() {
        return None;
    }
    let s = decimal::read_i64(start)?;
    let e = decimal::read_i64(end)?;
    Some(Line::Remove(s, e))
}

// A line of four words.
fn insert_of(word: &[u8], start: &[u8], end: &[u8], value: &[u8]) -> Option<Line>
    ensures { result ≡ words_line (word.now ∷ start.now ∷ end.now ∷ value.now ∷ []) }
{
    if word != b"insert".as_slice() {
        return None;
    }
    let s = decimal::read_i64(start)?;
    let e = decimal::read_i64(end)?;
    let v = decimal::read_u64(value)?;
    let v = u8::try_from(v).ok()?;
    Some(Line::Insert(s, e, v))
}

// The edit that the bytes of a line are, if they are one.
pub fn line_of(line: &[u8]) -> Option<Line>
    ensures { result ≡ line_of line.now }
{
    let (word, rest) = first_word(line)?;
    let (start, rest) = first_word(rest)?;
    let Some((end, value)) = first_word(rest) else {
        return remove_of(word, start, rest);
    };
    match first_word(value) {
        None => insert_of(word, start, end, value),
        Some(_) => None,
    }
}
