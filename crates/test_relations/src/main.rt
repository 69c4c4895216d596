// Prints what the exported relations answer for every range and every pair of ranges over five keys, both kinds, and for document 01's cases.
// The file `stdout` is what rangemap 1.8.0 answers, with document 01's answer 1 for an empty or reversed range:
//     rust/compare --replay relations > crates/test_relations/stdout
// Each answer is printed whole, its number first.
#![tactic(auto)]

use key::RangeKind;
use relations::{Intersected, Related, half_open, inclusive};
use test_print::{Ends, key_at, print, print_found, print_key, print_range, print_told, range_at};

// ---- both kinds go through the same lines

fn contains(kind: RangeKind, r: Ends, key: i64) -> Related {
    match kind {
        RangeKind::HalfOpen => half_open::range_contains(r.start, r.end, key),
        RangeKind::Inclusive => inclusive::range_inclusive_contains(r.start, r.end, key),
    }
}

fn overlaps(kind: RangeKind, a: Ends, b: Ends) -> Related {
    match kind {
        RangeKind::HalfOpen => half_open::range_overlaps(a.start, a.end, b.start, b.end),
        RangeKind::Inclusive => inclusive::range_inclusive_overlaps(a.start, a.end, b.start, b.end),
    }
}

fn touches(kind: RangeKind, a: Ends, b: Ends) -> Related {
    match kind {
        RangeKind::HalfOpen => half_open::range_touches(a.start, a.end, b.start, b.end),
        RangeKind::Inclusive => inclusive::range_inclusive_touches(a.start, a.end, b.start, b.end),
    }
}

fn intersect(kind: RangeKind, a: Ends, b: Ends) -> Intersected {
    match kind {
        RangeKind::HalfOpen => half_open::range_intersect(a.start, a.end, b.start, b.end),
        RangeKind::Inclusive => {
            inclusive::range_inclusive_intersect(a.start, a.end, b.start, b.end)
        }
    }
}

// ---- one range

fn print_contains(kind: RangeKind, r: Ends, key: i64) {
    io::write_all(1, b" contains(");
    print_key(key);
    print(b')');
    print(b' ');
    let told = contains(kind, r, key);
    print_told(told.answer, told.yes);
}

fn print_contains_line(kind: RangeKind, r: Ends) {
    print_range(kind, r.start, r.end);
    print(b':');
    print_contains(kind, r, key_at(0));
    print(b',');
    print_contains(kind, r, key_at(1));
    print(b',');
    print_contains(kind, r, key_at(2));
    print(b',');
    print_contains(kind, r, key_at(3));
    print(b',');
    print_contains(kind, r, key_at(4));
    print(b'\n');
}

// ---- two ranges

fn print_pair_of(kind: RangeKind, a: Ends, b: Ends) {
    print_range(kind, a.start, a.end);
    io::write_all(1, b" and ");
    print_range(kind, b.start, b.end);
    print(b':');
}

// A relation behind its name.
fn print_related(name: &[u8], r: Related) {
    io::write_all(1, name);
    print_told(r.answer, r.yes);
}

fn print_intersect(kind: RangeKind, a: Ends, b: Ends) {
    io::write_all(1, b" intersect ");
    let common = intersect(kind, a, b);
    print_found(common.answer, kind, common.start, common.end);
    print(b'\n');
}

fn print_pair_line(kind: RangeKind, a: Ends, b: Ends) {
    print_pair_of(kind, a, b);
    print_related(b" overlaps ", overlaps(kind, a, b));
    print_related(b", touches ", touches(kind, a, b));
    print(b',');
    print_intersect(kind, a, b);
}

// ---- all of them

// Document 01's cases of intersect.
fn print_case(a: Ends, b: Ends) {
    io::write_all(1, b"case ");
    print_pair_of(RangeKind::HalfOpen, a, b);
    print_intersect(RangeKind::HalfOpen, a, b);
}

fn print_cases() {
    print_case(Ends { start: 0, end: 5 }, Ends { start: 0, end: 3 });
    print_case(Ends { start: 0, end: 3 }, Ends { start: 0, end: 5 });
    print_case(Ends { start: 0, end: 3 }, Ends { start: 3, end: 3 });
}

// Inclusive ranges with one key between them, which no two ranges over the five keys have.
fn print_one_between() {
    let a = Ends { start: 0, end: 0 };
    let b = Ends { start: 2, end: 2 };
    print_pair_line(RangeKind::Inclusive, a, b);
    print_pair_line(RangeKind::Inclusive, b, a);
}

fn print_ranges(kind: RangeKind) {
    for i in 0..25u32 {
        print_contains_line(kind, range_at(i));
    }
}

fn print_pairs(kind: RangeKind) {
    for i in 0..625u32 {
        print_pair_line(kind, range_at(i / 25), range_at(i % 25));
    }
}

fn main() {
    print_cases();
    print_one_between();
    print_ranges(RangeKind::HalfOpen);
    print_pairs(RangeKind::HalfOpen);
    print_ranges(RangeKind::Inclusive);
    print_pairs(RangeKind::Inclusive);
}
