// A query read into its table. The functions of the grammar's levels call each other in a cycle: what is in parentheses is a whole query again.

ghost use Rattle.std.specs.Prelude.{◌-◌, ◌≤◌, ◌<◌, length, drop};
ghost use Rattle.query_text.specs.Grammar.{open_limit, factor as Level·factor, term as Level·term, sum as Level·sum};
ghost use Rattle.query_text.specs.Reader.{digit_then, atom as Reader·atom, query_of};
ghost use Rattle.query_text.specs.InnerClasses.{atom_of};
ghost use Rattle.query_text.specs.InnerCursor.{Placed};
ghost use Rattle.query_text.specs.InnerReading.{ReadAs, Reads, here, negation, grouping};

use crate::cursor::Cursor;
use crate::truth::Truth;

// What was read, and where the cursor is then; or the bytes are no query. Inside the reader that is an Option; this stays, since it is the answer
// of read_query, a name of docs/EXCEPTIONS.md.
#[derive(Clone, Copy)]
pub enum Reading {
    Got(Cursor, Truth),
    Bad,
}

// A digit: the second map holds it, or else the first.
fn holding(bytes: &[u8], c: Cursor, second: bool) -> Option<(Cursor, Truth)>
    requires { c.at ≤ length bytes.now }
    ensures { Reads bytes.now c.marks (digit_then (atom_of second) (drop c.at bytes.now)) result }
{
    if !c.sees_digit(bytes) {
        return None;
    }
    Some((c.next(), Truth::atom(second, c.digit(bytes))))
}

// A or B, then a digit.
fn atom(bytes: &[u8], c: Cursor) -> Option<(Cursor, Truth)>
    requires { c.at ≤ length bytes.now }
    ensures { Reads bytes.now c.marks (Reader·atom (drop c.at bytes.now)) result }
{
    if c.sees(bytes, b'A') {
        return holding(bytes, c.next(), false);
    }
    if c.sees(bytes, b'B') {
        return holding(bytes, c.next(), true);
    }
    None
}

// `!` and its operand. The mark is open until the operand ends.
#[cycle(factor_grouped_negated_sum_term)]
fn negated(bytes: &[u8], c: Cursor) -> Option<(Cursor, Truth)>
    requires { (c.at < length bytes.now) × (c.marks ≤ open_limit) }
    ensures { Reads bytes.now c.marks (negation (open_limit - c.marks) (drop c.at bytes.now)) result }
{
    if c.is_full() {
        return None;
    }
    let (d, t) = factor(bytes, c.opened())?;
    Some((d.shut(), t.not()))
}

// A query in parentheses.
#[cycle(factor_grouped_negated_sum_term)]
fn grouped(bytes: &[u8], c: Cursor) -> Option<(Cursor, Truth)>
    requires { (c.at < length bytes.now) × (c.marks ≤ open_limit) }
    ensures { Reads bytes.now c.marks (grouping (open_limit - c.marks) (drop c.at bytes.now)) result }
{
    if c.is_full() {
        return None;
    }
    let (d, t) = sum(bytes, c.opened())?;
    if !d.sees(bytes, b')') {
        return None;
    }
    Some((d.next().shut(), t))
}

// What binds tightest.
#[cycle(factor_grouped_negated_sum_term)]
fn factor(bytes: &[u8], c: Cursor) -> Option<(Cursor, Truth)>
    requires { Placed bytes.now c }
    ensures { Reads bytes.now c.marks (here Level·factor bytes.now c) result }
{
    if c.sees(bytes, b'!') {
        return negated(bytes, c);
    }
    if c.sees(bytes, b'(') {
        return grouped(bytes, c);
    }
    atom(bytes, c)
}

// Factors with `&` between them. This and `sum` stay two functions: one over both would ask a level for its mark, the level below and how two tables
// join, each by a match, and be longer.
#[cycle(factor_grouped_negated_sum_term)]
fn term(bytes: &[u8], c: Cursor) -> Option<(Cursor, Truth)>
    requires { Placed bytes.now c }
    ensures { Reads bytes.now c.marks (here Level·term bytes.now c) result }
{
    let (d, t) = factor(bytes, c)?;
    if !d.sees(bytes, b'&') {
        return Some((d, t));
    }
    let (e, u) = term(bytes, d.next())?;
    Some((e, t.and(u)))
}

// Terms with `|` between them.
#[cycle(factor_grouped_negated_sum_term)]
fn sum(bytes: &[u8], c: Cursor) -> Option<(Cursor, Truth)>
    requires { Placed bytes.now c }
    ensures { Reads bytes.now c.marks (here Level·sum bytes.now c) result }
{
    let (d, t) = term(bytes, c)?;
    if !d.sees(bytes, b'|') {
        return Some((d, t));
    }
    let (e, u) = sum(bytes, d.next())?;
    Some((e, t.or(u)))
}

// The most bytes that a query has.
const LONGEST: usize = 64;

// THE QUERY that all the bytes are.
pub fn read_query(bytes: &[u8]) -> Reading
    ensures { ReadAs bytes.now 0 (query_of bytes.now) result }
{
    if bytes.len() > LONGEST {
        return Reading::Bad;
    }
    let Some((d, t)) = sum(bytes, Cursor::FRESH) else {
        return Reading::Bad;
    };
    if d.at < bytes.len() {
        return Reading::Bad;
    }
    Reading::Got(d, t)
}
