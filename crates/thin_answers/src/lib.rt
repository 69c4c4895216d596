// What the check proves by itself of a thin function that passes an answer on: one for each kind of struct that an answer in numbers is. Then today's
// shapes: a check that goes on by `?`, and a struct of numbers that is made by `From` of a `Result`, as those of `outcomes` are. None has a proof file.
// As in `thin`, where a later toolchain wants one, this crate tells first. No other crate stands on it.
#![tactic(auto)]

ghost use Rattle.std.specs.Prelude.{◌≡◌};
ghost use Rattle.thin_answers.specs.Answered.{told_less, counted_as, found_as};
ghost use Rattle.thin_answers.specs.Answered.{part_as, ordered_as, totalled_as, applied_as};
ghost use Rattle.thin_answers.specs.Answered.{rising, low_of, byte_in_c};

use outcomes::{Applied, Count, Order, Range, Stretch, Told, Total};

// Two numbers.
#[repr(C)]
#[derive(Drop)]
pub struct Pair {
    pub first: u8,
    pub second: u8,
}

#[tactic(auto, unfolding(crate::specs::Answered::told_less))]
fn less(a: &u8, b: &u8) -> Told
    ensures { result ≡ told_less a.now b.now }
{
    Told {
        answer: 0,
        yes: *a < *b,
    }
}

#[tactic(auto, unfolding(crate::specs::Answered::counted_as))]
fn counted(n: usize) -> Count
    ensures { result ≡ counted_as n }
{
    Count {
        answer: 0,
        count: n,
    }
}

#[tactic(auto, unfolding(crate::specs::Answered::found_as))]
fn found(start: i64, end: i64, value: u8) -> Range
    ensures { result ≡ found_as start end value }
{
    Range {
        answer: 0,
        start,
        end,
        value,
    }
}

#[tactic(auto, unfolding(crate::specs::Answered::part_as))]
fn part(place: usize, count: usize) -> Stretch
    ensures { result ≡ part_as place count }
{
    Stretch {
        answer: 0,
        place,
        count,
    }
}

#[tactic(auto, unfolding(crate::specs::Answered::ordered_as))]
fn ordered(order: i8) -> Order
    ensures { result ≡ ordered_as order }
{
    Order { answer: 0, order }
}

#[tactic(auto, unfolding(crate::specs::Answered::totalled_as))]
fn totalled(total: u64) -> Total
    ensures { result ≡ totalled_as total }
{
    Total { answer: 0, total }
}

#[tactic(auto, unfolding(crate::specs::Answered::applied_as))]
fn applied(applied: usize) -> Applied
    ensures { result ≡ applied_as applied }
{
    Applied { answer: 0, applied }
}

// Yes or no of a struct's fields.
pub fn pair_less(p: &Pair) -> Told
    ensures { result ≡ told_less p.now.first p.now.second }
{
    less(&p.first, &p.second)
}

// A count.
pub fn pair_counted(_p: &Pair, n: usize) -> Count
    ensures { result ≡ counted_as n }
{
    counted(n)
}

// A range.
pub fn pair_found(_p: &Pair, start: i64, end: i64, value: u8) -> Range
    ensures { result ≡ found_as start end value }
{
    found(start, end, value)
}

// A part of the places.
pub fn pair_part(_p: &Pair, place: usize, count: usize) -> Stretch
    ensures { result ≡ part_as place count }
{
    part(place, count)
}

// An order.
pub fn pair_ordered(_p: &Pair, order: i8) -> Order
    ensures { result ≡ ordered_as order }
{
    ordered(order)
}

// A total.
pub fn pair_totalled(_p: &Pair, total: u64) -> Total
    ensures { result ≡ totalled_as total }
{
    totalled(total)
}

// How many edits of a list were applied.
pub fn pair_applied(_p: &Pair, n: usize) -> Applied
    ensures { result ≡ applied_as n }
{
    applied(n)
}

// Why a pair is refused: its first number is not less than its second.
#[derive(Clone, Copy)]
pub enum Amiss {
    NotRising,
}

// A byte, in C.
#[repr(C)]
#[derive(Clone, Copy)]
pub struct Byte {
    pub answer: u8,
    pub byte: u8,
}

impl From<Result<u8, Amiss>> for Byte {
    ghost from_gives = { λ a r. r ≡ byte_in_c a };

    fn from(low: Result<u8, Amiss>) -> Byte {
        match low {
            Ok(byte) => Byte { answer: 0, byte },
            Err(Amiss::NotRising) => Byte { answer: 4, byte: 0 },
        }
    }
}

// A check, whose answer is an equation.
fn risen(p: &Pair) -> Result<(), Amiss>
    ensures { result ≡ rising p.now }
{
    if p.first < p.second {
        Ok(())
    } else {
        Err(Amiss::NotRising)
    }
}

// One that asks the check, and goes on by `?`.
#[tactic(auto, unfolding(crate::specs::Answered::low_of))]
pub fn low(p: &Pair) -> Result<u8, Amiss>
    ensures { result ≡ low_of p.now }
{
    risen(p)?;
    Ok(p.first)
}

// One whose struct is made of a `Result`.
pub fn pair_low(p: &Pair) -> Byte
    ensures { result ≡ byte_in_c (low_of p.now) }
{
    Byte::from(low(p))
}
