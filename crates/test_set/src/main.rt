// Prints what the functions of sets answer for every set over four cells, and for one that is not well formed: every question, every edit by
// one of 25 ranges, and every pair of sets. Both kinds. The cells are long and short, and lie at both ends of the keys.
// The file `stdout` is what rangemap 1.8.0 answers, with document 01's numbers:
//     rust/compare --replay set > crates/test_set/stdout
// A line has a set by its ranges, what it is asked with, and the answers, each behind a letter: its number first, then all its fields.
#![tactic(auto)]

use key::{GREATEST, LEAST, RangeKind};
use operations::Operation;
use outcomes::{Count, Order, PLACES, Range, Stored, Stretch, Told, Total};
use test_print::{Ends, key_at, print, print_field, print_key, print_list, print_range, range_at};

#[derive(Drop)]
struct Set {
    kind: RangeKind,
    stored: Stored,
}

// ---- sets by number

// The four cells, side by side.
const HALF_OPEN: [Ends; 4] = [
    Ends {
        start: LEAST,
        end: 0,
    },
    Ends { start: 0, end: 1 },
    Ends {
        start: 1,
        end: GREATEST - 1,
    },
    Ends {
        start: GREATEST - 1,
        end: GREATEST,
    },
];

// The last inclusive cell has the greatest key only, so the one before has one key more.
const INCLUSIVE: [Ends; 4] = [
    Ends {
        start: LEAST,
        end: -1,
    },
    Ends { start: 0, end: 0 },
    Ends {
        start: 1,
        end: GREATEST - 1,
    },
    Ends {
        start: GREATEST,
        end: GREATEST,
    },
];

fn cells(kind: RangeKind) -> [Ends; 4] {
    match kind {
        RangeKind::HalfOpen => HALF_OPEN,
        RangeKind::Inclusive => INCLUSIVE,
    }
}

fn insert(m: &mut Set, r: Ends) -> u8 {
    set_abi::insert(m.kind, &mut m.stored, r.start, r.end)
}

fn remove(m: &mut Set, r: Ends) -> u8 {
    set_abi::remove(m.kind, &mut m.stored, r.start, r.end)
}

// Sets 0 to 15 are those over the cells, a binary digit for each cell. All others are not well formed: they have a value in the last place.
fn set_at(kind: RangeKind, i: u32) -> Set {
    let mut m = Set {
        kind,
        stored: Stored::new(),
    };
    for (digit, cell) in cells(kind).iter().enumerate() {
        if (i >> digit) % 2 == 1 {
            insert(&mut m, *cell);
        }
    }
    if i >= 16 {
        m.stored.values[PLACES - 1] = 1;
    }
    m
}

// A set is lent for each question, and is copied where it is edited and kept beside.
fn copied(m: &Set) -> Set {
    Set {
        kind: m.kind,
        stored: Stored {
            count: m.stored.count,
            starts: m.stored.starts,
            ends: m.stored.ends,
            values: m.stored.values,
        },
    }
}

// ---- printing

// What was asked, a letter, and the number of the answer.
fn print_answer(what: u8, answer: u8) {
    print(b' ');
    print(what);
    print_field(answer as u64);
}

fn print_told(what: u8, r: Told) {
    print_answer(what, r.answer);
    print_field(r.yes as u64);
}

fn print_count(what: u8, r: Count) {
    print_answer(what, r.answer);
    print_field(r.count as u64);
}

fn print_total(what: u8, r: Total) {
    print_answer(what, r.answer);
    print_field(r.total);
}

fn print_found(what: u8, kind: RangeKind, r: Range) {
    print_answer(what, r.answer);
    print(b' ');
    print_range(kind, r.start, r.end);
    print_field(r.value as u64);
}

fn print_stretch(what: u8, r: Stretch) {
    print_answer(what, r.answer);
    print_field(r.place as u64);
    print_field(r.count as u64);
}

// The order plus one.
fn print_order(what: u8, r: Order) {
    print_answer(what, r.answer);
    print_field(match r.order {
        -1 => 0,
        1 => 2,
        _ => 1,
    });
}

// A set by its ranges, of which there are four at most.
fn print_set(m: &Set) {
    print(b'{');
    for place in 0..4 {
        let r = set_abi::range_at(m.kind, &m.stored, place);
        if r.answer == 0 {
            print(b' ');
            print_range(m.kind, r.start, r.end);
        }
    }
    print(b'}');
}

// What an edit answers, and the set that it leaves.
fn print_edited(what: u8, answer: u8, m: &Set) {
    print_answer(what, answer);
    print(b' ');
    print_set(m);
}

// ---- one set

// Is empty, len, first, last, the second range and the total.
fn print_whole(m: &Set) {
    print_set(m);
    print_told(b'e', set_abi::is_empty(m.kind, &m.stored));
    print_count(b'n', set_abi::len(m.kind, &m.stored));
    print_found(b'f', m.kind, set_abi::first(m.kind, &m.stored));
    print_found(b'l', m.kind, set_abi::last(m.kind, &m.stored));
    print_found(b's', m.kind, set_abi::range_at(m.kind, &m.stored, 1));
    print_total(b't', set_abi::total(m.kind, &m.stored));
    print(b'\n');
}

// Get and contains.
fn print_at(m: &Set, key: i64) {
    print_set(m);
    print(b' ');
    print_key(key);
    print_found(b'g', m.kind, set_abi::get(m.kind, &m.stored, key));
    print_told(b'c', set_abi::contains(m.kind, &m.stored, key));
    print(b'\n');
}

// Insert and remove.
fn print_edits(m: &Set, r: Ends) {
    print_set(m);
    print(b' ');
    print_range(m.kind, r.start, r.end);
    let mut longer = copied(m);
    print_edited(b'i', insert(&mut longer, r), &longer);
    let mut shorter = copied(m);
    print_edited(b'r', remove(&mut shorter, r), &shorter);
}

// The edits, overlapping, overlaps, and the gaps into three places, which hold 0 before.
fn print_over(m: &Set, r: Ends) {
    print_edits(m, r);
    print_stretch(
        b'o',
        set_abi::overlapping(m.kind, &m.stored, r.start, r.end),
    );
    print_told(b'v', set_abi::overlaps(m.kind, &m.stored, r.start, r.end));
    let mut starts = [0; 3];
    let mut ends = [0; 3];
    let gaps = set_abi::gaps(m.kind, &m.stored, r.start, r.end, &mut starts, &mut ends);
    print_count(b'w', gaps);
    print_list(m.kind, &starts, &ends);
    print(b'\n');
}

// ---- two sets

// What an operation writes into three places, which hold 0 before.
fn print_combined(what: u8, operation: Operation, a: &Set, b: &Set) {
    let mut starts = [0; 3];
    let mut ends = [0; 3];
    let found = set_abi::combine(
        a.kind,
        operation,
        &a.stored,
        &b.stored,
        &mut starts,
        &mut ends,
    );
    print_count(what, found);
    print_list(a.kind, &starts, &ends);
}

// Equality, order, intersection and union.
fn print_pair(a: &Set, b: &Set) {
    print_set(a);
    print(b' ');
    print_set(b);
    print_told(b'q', set_abi::eq(a.kind, &a.stored, &b.stored));
    print_order(b'm', set_abi::cmp(a.kind, &a.stored, &b.stored));
    print_combined(b'a', Operation::Intersection, a, b);
    print_combined(b'u', Operation::Union, a, b);
    print(b'\n');
}

// ---- all of them

fn print_kind(kind: RangeKind) {
    for i in 0..17 {
        print_whole(&set_at(kind, i));
    }
    for i in 0..17 {
        let m = set_at(kind, i);
        for key in 0..5 {
            print_at(&m, key_at(key));
        }
    }
    for i in 0..17 {
        let m = set_at(kind, i);
        for range in 0..25 {
            print_over(&m, range_at(range));
        }
    }
    for i in 0..17 {
        let m = set_at(kind, i);
        for j in 0..17 {
            print_pair(&m, &set_at(kind, j));
        }
    }
}

fn main() {
    print_kind(RangeKind::HalfOpen);
    print_kind(RangeKind::Inclusive);
}
