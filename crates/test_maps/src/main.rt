// Reads steps from standard input, carries them out with the functions of a map of either kind, and prints each answer whole, its number
// first, and the map after each edit. A step is a line of four letters with spaces between: what to do, two keys (or a place) and a value (or
// a length). The steps H and I begin anew, with an empty map of half-open or of inclusive ranges.
// A line that begins with # is printed as it is: document 01's cases are among the steps by name.
// The file `stdout` is what rangemap 1.8.0 answers, with document 01's numbers:
//     rust/compare --replay maps > crates/test_maps/stdout
#![tactic(auto)]

use key::RangeKind;
use outcomes::{Applied, Count, Order, Range, Stored, Stretch, Told};
use test_print::{
    Ends, print, print_colon, print_field, print_key, print_list, print_number, print_range,
    print_told, read_byte, read_letter,
};

// As many places as the lists of a step have at most.
const LISTED: usize = 9;

#[derive(Drop)]
struct Map {
    kind: RangeKind,
    stored: Stored,
}

// Entries for a bulk insert.
#[derive(Clone, Copy)]
struct List {
    length: usize,
    starts: [i64; LISTED],
    ends: [i64; LISTED],
    values: [u8; LISTED],
}

#[derive(Clone, Copy)]
struct Step {
    what: u8,
    one: u8,
    two: u8,
    three: u8,
}

// ---- reading

// Prints the rest of a line.
fn echo_line() {
    for _ in 0..1000 {
        let byte = read_byte();
        if byte == 0 {
            return;
        }
        print(byte);
        if byte == b'\n' {
            return;
        }
    }
}

// The rest of a step, and the end of its line.
fn read_step(what: u8) -> Step {
    let one = read_letter();
    let two = read_letter();
    let three = read_letter();
    read_byte();
    Step {
        what,
        one,
        two,
        three,
    }
}

fn digit(letter: u8) -> u8 {
    match letter {
        b'1'..=b'9' => letter - b'0',
        _ => 0,
    }
}

// Ten keys from the least on, ten up to the greatest, two behind all ranges of the full map, and ten from 0 on.
fn key_of(letter: u8) -> i64 {
    match letter {
        b'a' => -9223372036854775808,
        b'b' => -9223372036854775807,
        b'c' => -9223372036854775806,
        b'd' => -9223372036854775805,
        b'e' => -9223372036854775804,
        b'f' => -9223372036854775803,
        b'g' => -9223372036854775802,
        b'h' => -9223372036854775801,
        b'i' => -9223372036854775800,
        b'j' => -9223372036854775799,
        b'q' => 9223372036854775798,
        b'r' => 9223372036854775799,
        b's' => 9223372036854775800,
        b't' => 9223372036854775801,
        b'u' => 9223372036854775802,
        b'v' => 9223372036854775803,
        b'w' => 9223372036854775804,
        b'x' => 9223372036854775805,
        b'y' => 9223372036854775806,
        b'z' => 9223372036854775807,
        b'T' => 2000,
        b'U' => 2001,
        _ => digit(letter) as i64,
    }
}

fn ends_of(s: Step) -> Ends {
    Ends {
        start: key_of(s.one),
        end: key_of(s.two),
    }
}

// ---- printing

// The number of an answer.
fn print_answer(answer: u8) {
    print_colon();
    print_number(answer as u64);
}

// What was asked, and over which range.
fn print_asked(name: &[u8], kind: RangeKind, r: Ends) {
    io::write_all(1, name);
    print(b' ');
    print_range(kind, r.start, r.end);
}

fn print_value(value: u8) {
    print(b'>');
    print_number(value as u64);
}

fn print_entry(kind: RangeKind, r: Range) {
    print_range(kind, r.start, r.end);
    print_value(r.value);
}

fn print_yes(r: Told) {
    print_colon();
    print_told(r.answer, r.yes);
}

fn print_found(kind: RangeKind, r: Range) {
    print_answer(r.answer);
    print(b' ');
    print_entry(kind, r);
}

fn print_count(r: Count) {
    print_answer(r.answer);
    print_field(r.count as u64);
}

fn print_stretch(r: Stretch) {
    print_answer(r.answer);
    io::write_all(1, b" place ");
    print_number(r.place as u64);
    io::write_all(1, b" count ");
    print_number(r.count as u64);
}

fn print_order(r: Order) {
    print_answer(r.answer);
    print(b' ');
    match r.order {
        -1 => {
            print(b'-');
            print(b'1');
        }
        1 => print(b'1'),
        _ => print(b'0'),
    }
}

fn print_applied(r: Applied) {
    print_answer(r.answer);
    io::write_all(1, b" applied ");
    print_number(r.applied as u64);
}

fn len(m: &Map) -> Count {
    map_abi::len(m.kind, &m.stored)
}

fn range_at(m: &Map, place: usize) -> Range {
    map_abi::range_at(m.kind, &m.stored, place)
}

// The comma before all places but the first.
fn print_comma(place: usize) {
    if place > 0 {
        print(b',');
        print(b' ');
    }
}

// The first so many places.
fn print_places(m: &Map, many: usize) {
    for place in 0..many {
        print_comma(place);
        print_entry(m.kind, range_at(m, place));
    }
}

// A long map by its first three ranges, its last and their number.
fn print_ranges(m: &Map, count: usize) {
    if count <= 8 {
        print_places(m, count);
        return;
    }
    print_places(m, 3);
    io::write_all(1, b", .., ");
    print_entry(m.kind, range_at(m, count - 1));
    print_colon();
    print_number(count as u64);
    io::write_all(1, b" ranges");
}

fn print_map(m: &Map) {
    let r = len(m);
    if r.answer == 0 {
        print(b'{');
        print_ranges(m, r.count);
        print(b'}');
    } else {
        io::write_all(1, b"not well formed");
    }
}

// The map after a step.
fn print_now(m: &Map) {
    io::write_all(1, b", now ");
    print_map(m);
    print(b'\n');
}

// ---- edits

fn new(kind: RangeKind) -> Map {
    Map {
        kind,
        stored: Stored::new(),
    }
}

// A map is lent for each step, and is copied where it is kept beside: `Stored` is not `Copy`, for it is large.
fn copied(m: &Map) -> Map {
    Map {
        kind: m.kind,
        stored: Stored {
            count: m.stored.count,
            starts: m.stored.starts,
            ends: m.stored.ends,
            values: m.stored.values,
        },
    }
}

// What an edit answers, and the map that it leaves, behind what was asked.
fn show_left(answer: u8, m: &Map) {
    print_answer(answer);
    print_now(m);
}

fn insert(m: &mut Map, r: Ends, value: u8) -> u8 {
    map_abi::insert(m.kind, &mut m.stored, r.start, r.end, value)
}

fn show_insert(m: &mut Map, r: Ends, value: u8) {
    print_asked(b"insert", m.kind, r);
    print_value(value);
    show_left(insert(m, r, value), m);
}

fn remove(m: &mut Map, r: Ends) -> u8 {
    map_abi::remove(m.kind, &mut m.stored, r.start, r.end)
}

fn show_remove(m: &mut Map, r: Ends) {
    print_asked(b"remove", m.kind, r);
    show_left(remove(m, r), m);
}

fn clear(m: &mut Map) {
    map_ops::change::clear(&mut m.stored);
    io::write_all(1, b"clear\n");
}

// The range that has one key, by the key and the next.
fn range_of_one(kind: RangeKind, key: u32, next: u32) -> Ends {
    match kind {
        RangeKind::HalfOpen => Ends {
            start: key as i64,
            end: next as i64,
        },
        RangeKind::Inclusive => Ends {
            start: key as i64,
            end: key as i64,
        },
    }
}

// A range of one key and of value 7, and nothing printed.
fn put(m: &mut Map, key: u32, next: u32) {
    let r = range_of_one(m.kind, key, next);
    insert(m, r, 7);
}

// Document 01's full map: 512 ranges of one value at 0..1, 2..3, and so on; its inclusive sibling has 0..=0, 2..=2, and so on.
fn fill(m: &mut Map) {
    map_ops::change::clear(&mut m.stored);
    for i in 0..512u32 {
        put(m, 2 * i, 2 * i + 1);
    }
    io::write_all(1, b"full");
    print_now(m);
}

// Something in an unused place.
fn damage(m: &mut Map) {
    m.stored.values[511] = 1;
    io::write_all(1, b"damaged\n");
}

// ---- questions

fn print_asked_gaps(kind: RangeKind, r: Ends, many: u8) {
    print_asked(b"gaps", kind, r);
    io::write_all(1, b" into ");
    print_number(many as u64);
}

// What a step asks.
fn print_question(kind: RangeKind, s: Step) {
    match s.what {
        b'e' => {
            io::write_all(1, b"is_empty");
        }
        b'n' => {
            io::write_all(1, b"len");
        }
        b'h' => {
            io::write_all(1, b"first");
        }
        b'l' => {
            io::write_all(1, b"last");
        }
        b'p' => {
            io::write_all(1, b"range_at ");
            print_number(digit(s.one) as u64);
        }
        b'g' => {
            io::write_all(1, b"get ");
            print_key(key_of(s.one));
        }
        b'k' => {
            io::write_all(1, b"contains ");
            print_key(key_of(s.one));
        }
        b'o' => print_asked(b"overlapping", kind, ends_of(s)),
        b'w' => print_asked_gaps(kind, ends_of(s), digit(s.three)),
        _ => {}
    }
}

// Overlaps is asked with overlapping, on a line of its own.
fn answer_overlapping(m: &Map, r: Ends) {
    print_stretch(map_abi::overlapping(m.kind, &m.stored, r.start, r.end));
    print(b'\n');
    print_asked(b"overlaps", m.kind, r);
    print_yes(map_abi::overlaps(m.kind, &m.stored, r.start, r.end));
}

fn answer_gaps_into(m: &Map, r: Ends, out_starts: &mut [i64], out_ends: &mut [i64]) {
    print_count(map_abi::gaps(m.kind, &m.stored, r.start, r.end, out_starts, out_ends));
    print_list(m.kind, out_starts, out_ends);
}

// The gaps into lists of so many places, which hold 0 before. Only one list is cut: the shorter decides.
fn answer_gaps(m: &Map, r: Ends, many: usize) {
    let mut out_starts = [0i64; LISTED];
    let mut out_ends = [0i64; LISTED];
    if many <= LISTED {
        answer_gaps_into(m, r, &mut out_starts[..many], &mut out_ends);
    }
}

fn answer(m: &Map, s: Step) {
    let kind = m.kind;
    let stored = &m.stored;
    match s.what {
        b'e' => print_yes(map_abi::is_empty(kind, stored)),
        b'n' => print_count(map_abi::len(kind, stored)),
        b'h' => print_found(kind, map_abi::first_range_value(kind, stored)),
        b'l' => print_found(kind, map_abi::last_range_value(kind, stored)),
        b'p' => print_found(kind, map_abi::range_at(kind, stored, digit(s.one) as usize)),
        b'g' => print_found(kind, map_abi::get_key_value(kind, stored, key_of(s.one))),
        b'k' => print_yes(map_abi::contains_key(kind, stored, key_of(s.one))),
        b'o' => answer_overlapping(m, ends_of(s)),
        b'w' => answer_gaps(m, ends_of(s), digit(s.three) as usize),
        _ => {}
    }
}

fn ask(m: &Map, s: Step) {
    print_question(m.kind, s);
    answer(m, s);
    print(b'\n');
}

fn compare(a: &Map, b: &Map) {
    io::write_all(1, b"eq");
    print_yes(map_abi::eq(a.kind, &a.stored, &b.stored));
    io::write_all(1, b", cmp");
    print_order(map_abi::cmp(a.kind, &a.stored, &b.stored));
    print(b'\n');
}

// ---- bulk insert

fn no_list() -> List {
    List {
        length: 0,
        starts: [0; LISTED],
        ends: [0; LISTED],
        values: [0; LISTED],
    }
}

// An entry more, if there is room.
fn add(list: &mut List, r: Ends, value: u8) {
    let n = list.length;
    if n < LISTED {
        list.starts[n] = r.start;
        list.ends[n] = r.end;
        list.values[n] = value;
        list.length = n + 1;
    }
}

// The map gets the first so many entries, whose number is printed with the answer. Only one list is cut: the shortest decides.
fn extend(m: &mut Map, list: List) {
    let many = list.length;
    if many <= LISTED {
        print_applied(map_ops::change::bulk::extend(
            m.kind,
            &mut m.stored,
            &list.starts[..many],
            &list.ends,
            &list.values,
        ));
    }
}

fn show_extend(m: &mut Map, list: List) {
    io::write_all(1, b"extend by ");
    print_number(list.length as u64);
    extend(m, list);
    print_now(m);
}

// ---- steps

// An edit, or else a question, which leaves the map as it is.
fn edit(m: &mut Map, s: Step) {
    match s.what {
        b'i' => show_insert(m, ends_of(s), digit(s.three)),
        b'r' => show_remove(m, ends_of(s)),
        b'c' => clear(m),
        b'f' => fill(m),
        b'd' => damage(m),
        _ => ask(m, s),
    }
}

// What the steps work on.
#[derive(Drop)]
struct State {
    map: Map,
    other: Map,
    list: List,
}

fn anew(kind: RangeKind) -> State {
    State {
        map: new(kind),
        other: new(kind),
        list: no_list(),
    }
}

fn take(state: &mut State, s: Step) {
    match s.what {
        b'H' => {
            io::write_all(1, b"half-open maps\n");
            *state = anew(RangeKind::HalfOpen);
        }
        b'I' => {
            io::write_all(1, b"inclusive maps\n");
            *state = anew(RangeKind::Inclusive);
        }
        b's' => {
            io::write_all(1, b"stored\n");
            state.other = copied(&state.map);
        }
        b'q' => compare(&state.map, &state.other),
        b'b' => add(&mut state.list, ends_of(s), digit(s.three)),
        b'x' => {
            show_extend(&mut state.map, state.list);
            state.list = no_list();
        }
        _ => edit(&mut state.map, s),
    }
}

fn main() {
    let mut state = anew(RangeKind::HalfOpen);
    for _ in 0..10000 {
        let what = read_byte();
        if what == 0 {
            return;
        }
        if what == b'#' {
            print(what);
            echo_line();
        } else {
            take(&mut state, read_step(what));
        }
    }
}
