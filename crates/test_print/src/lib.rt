// What the programs that print answers share: keys and ranges to ask with, how a byte is read, and how keys, ranges and answers are printed.
// Everything is printed to standard output.
#![tactic(auto)]

use key::RangeKind;

// Keys with fewer than so many keys before them, or behind them, are printed by their distance from that end.
const NEAR: u64 = 10000;

// The rank of the key 0, and the greatest rank.
const ZERO: u64 = 9223372036854775808;

const GREATEST: u64 = 18446744073709551615;

// A range to ask with.
#[derive(Clone, Copy)]
pub struct Ends {
    pub start: i64,
    pub end: i64,
}

// ---- keys and ranges by number

// The five keys: both ends of the i64, the key before the last, and two between.
pub fn key_at(i: u32) -> i64 {
    match i {
        0 => -9223372036854775808,
        1 => 0,
        2 => 1,
        3 => 9223372036854775806,
        _ => 9223372036854775807,
    }
}

// The 25 ranges over the keys, of which some are empty or reversed.
pub fn range_at(i: u32) -> Ends {
    Ends {
        start: key_at(i / 5),
        end: key_at(i % 5),
    }
}

// ---- reading

// The next byte of the input, 0 at its end.
pub fn read_byte() -> u8 {
    let mut byte = [0u8; 1];
    let n = io::read_full(0, &mut byte);
    if n == 0 {
        return 0;
    }
    byte[0]
}

// A space and the letter behind it.
pub fn read_letter() -> u8 {
    read_byte();
    read_byte()
}

// What stands between a question and its answer.
pub fn print_colon() {
    print(b':');
    print(b' ');
}

// ---- printing

// One byte. A call with a byte is proved far sooner than one with a text, so what is short is printed by this.
pub fn print(byte: u8) {
    let bytes = [byte; 1];
    io::write_all(1, &bytes);
}

pub fn print_number(n: u64) {
    io::print_decimal(1, n);
}

// A space and a number.
pub fn print_field(n: u64) {
    print(b' ');
    print_number(n);
}

// How far a key is from an end, and nothing for the end itself.
fn print_distance(sign: u8, n: u64) {
    if n > 0 {
        print(sign);
        print_number(n);
    }
}

// The ends of the i64 by name, and keys near them by their distance. Others as a number with its sign: the kit prints only numbers without.
pub fn print_key(key: i64) {
    let rank = key::rank_of(key);
    if rank < NEAR {
        io::write_all(1, b"min");
        print_distance(b'+', rank);
    } else if GREATEST - rank < NEAR {
        io::write_all(1, b"max");
        print_distance(b'-', GREATEST - rank);
    } else if rank < ZERO {
        print(b'-');
        print_number(ZERO - rank);
    } else {
        print_number(rank - ZERO);
    }
}

// The = of an inclusive range.
fn print_kind(kind: RangeKind) {
    match kind {
        RangeKind::HalfOpen => {}
        RangeKind::Inclusive => print(b'='),
    }
}

pub fn print_range(kind: RangeKind, start: i64, end: i64) {
    print_key(start);
    print(b'.');
    print(b'.');
    print_kind(kind);
    print_key(end);
}

// The ranges of two lists, as many as the shorter has, each behind a space.
pub fn print_list(kind: RangeKind, starts: &[i64], ends: &[i64]) {
    for (start, end) in starts.iter().zip(ends) {
        print(b' ');
        print_range(kind, *start, *end);
    }
}

// An answer's number, and yes or no.
pub fn print_told(answer: u8, yes: bool) {
    print_number(answer as u64);
    if yes {
        io::write_all(1, b" yes");
    } else {
        io::write_all(1, b" no");
    }
}

// An answer's number, and a range.
pub fn print_found(answer: u8, kind: RangeKind, start: i64, end: i64) {
    print_number(answer as u64);
    print(b' ');
    print_range(kind, start, end);
}
