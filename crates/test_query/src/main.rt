// Reads questions from standard input, and prints what a query answers: its ranges into four places, which hold 0 before, and one instant.
// A question is a line with spaces between: a letter for each map, for both ends of the window and for the instant, and the query behind them.
// Document 01's cases are among them. The file `stdout` is what a model in Rust answers, that was written from document 01 alone:
//     rust/compare --replay query > crates/test_query/stdout
#![tactic(auto)]

use key::{Entry, GREATEST, LEAST, RangeKind};
use outcomes::{Count, PLACES, Stored, Told};
use test_print::{
    print, print_colon, print_key, print_list, print_number, print_range, print_told, read_byte,
    read_letter,
};

// No question has a longer query.
const MOST: usize = 80;

// All of a question but its query.
#[derive(Clone, Copy)]
struct Question {
    a: u8,
    b: u8,
    start: i64,
    end: i64,
    key: i64,
}

// ---- maps by letter

// Four ranges, of which the first three touch.
const FIRST: [Entry; 4] = [
    Entry {
        start: LEAST,
        end: 0,
        value: 3,
    },
    Entry {
        start: 0,
        end: 5,
        value: 1,
    },
    Entry {
        start: 5,
        end: 8,
        value: 3,
    },
    Entry {
        start: GREATEST - 1,
        end: GREATEST,
        value: 3,
    },
];

// Four ranges that touch. The value of one is the byte of a digit.
const SECOND: [Entry; 4] = [
    Entry {
        start: -2,
        end: 3,
        value: 1,
    },
    Entry {
        start: 3,
        end: 6,
        value: b'1',
    },
    Entry {
        start: 6,
        end: 7,
        value: 1,
    },
    Entry {
        start: 7,
        end: GREATEST,
        value: 0,
    },
];

// The map of four ranges.
fn storing(entries: &[Entry; 4]) -> Stored {
    let mut m = Stored::new();
    for (k, entry) in entries.iter().enumerate() {
        m.starts[k] = entry.start;
        m.ends[k] = entry.end;
        m.values[k] = entry.value;
    }
    m.count = 4;
    m
}

// With a value in its last place, which is not used.
fn damaged() -> Stored {
    let mut m = Stored::new();
    m.values[PLACES - 1] = 1;
    m
}

fn map_of(letter: u8) -> Stored {
    match letter {
        b'1' => storing(&FIRST),
        b'2' => storing(&SECOND),
        b'x' => damaged(),
        _ => Stored::new(),
    }
}

// ---- reading

// The keys at which the maps change, two beside them, and the ends of the i64.
fn key_of(letter: u8) -> i64 {
    match letter {
        b'a' => LEAST,
        b'b' => -3,
        b'c' => -2,
        b'd' => 0,
        b'e' => 3,
        b'f' => 4,
        b'g' => 5,
        b'h' => 6,
        b'i' => 7,
        b'j' => 8,
        b'y' => GREATEST - 1,
        _ => GREATEST,
    }
}

// The rest of a question, up to the space before its query.
fn read_question(a: u8) -> Question {
    let b = read_letter();
    let start = key_of(read_letter());
    let end = key_of(read_letter());
    let key = key_of(read_letter());
    read_byte();
    Question {
        a,
        b,
        start,
        end,
        key,
    }
}

fn is_end(byte: u8) -> bool {
    byte == b'\n' || byte == 0
}

// The rest of a line.
fn read_text(bytes: &mut [u8]) -> &[u8] {
    for n in 0..bytes.len() {
        let byte = read_byte();
        if is_end(byte) {
            return &bytes[..n];
        }
        bytes[n] = byte;
    }
    bytes
}

// ---- asking

fn print_count(r: Count) {
    print_number(r.answer as u64);
    print(b' ');
    print_number(r.count as u64);
}

// The window and the ranges.
fn show_list(a: &Stored, b: &Stored, q: Question, bytes: &[u8]) {
    print(b' ');
    print_range(RangeKind::HalfOpen, q.start, q.end);
    print_colon();
    let mut out_starts = [0i64; 4];
    let mut out_ends = [0i64; 4];
    let listed = query::ranges::query(a, b, q.start, q.end, bytes, &mut out_starts, &mut out_ends);
    print_count(Count::from(listed));
    print_list(RangeKind::HalfOpen, &out_starts, &out_ends);
}

// The instant and whether it is there.
fn show_at(a: &Stored, b: &Stored, q: Question, bytes: &[u8]) {
    print(b',');
    print(b' ');
    print_key(q.key);
    print_colon();
    let told = Told::from(query::instant::query_at(a, b, q.start, q.end, bytes, q.key));
    print_told(told.answer, told.yes);
    print(b'\n');
}

// The letters of the maps and the query, and then what is answered.
fn show(q: Question, bytes: &[u8]) {
    print(q.a);
    print(q.b);
    print(b' ');
    io::write_all(1, bytes);
    let a = map_of(q.a);
    let b = map_of(q.b);
    show_list(&a, &b, q, bytes);
    show_at(&a, &b, q, bytes);
}

fn main() {
    for _ in 0..1000 {
        let a = read_byte();
        if a == 0 {
            return;
        }
        let q = read_question(a);
        let mut bytes = [0u8; MOST];
        show(q, read_text(&mut bytes));
    }
}
