// The lines of `make`: a text of edits, done in order on a map that holds nothing at first.
#![tactic(auto)]

pub mod said;
mod scan;
mod words;

ghost use Rattle.std.specs.Prelude.{◌≡◌, ◌<◌, [], ◌∷◌, length};
ghost use Rattle.std.specs.Option.{MatchOption};
ghost use Rattle.edit_lines.specs.Parts.{lines_of};
ghost use Rattle.edit_lines.specs.Making.{line_of, change_of, Done, made, making, TellsFault, line_done, makes, made_of};

use key::RangeKind;
use outcomes::Stored;
use scan::place_of;

// What a line that is an edit asks for.
#[derive(Clone, Copy)]
pub enum Line {
    Insert(i64, i64, u8),
    Remove(i64, i64),
}

// Why the lines of a text were not all done, and at which line. Lines count from 1; a refusal has the number of document 01's table.
#[derive(Clone, Copy)]
pub enum NotMade {
    Refused(usize, u8),
    NotAnEdit(usize),
}

const NEWLINE: u8 = 10;

// Line `n`, done on a map.
fn line_done(line: &[u8], n: usize, m: &mut Stored) -> Result<(), NotMade>
    ensures { making (made result) m.new
        ≡ line_done n m.old
        (change_of (line_of line.now)) (making Done) }
{
    let edit = words::line_of(line).ok_or(NotMade::NotAnEdit(n))?;
    let went = match edit {
        Line::Insert(s, e, v) => map_ops::change::insert(RangeKind::HalfOpen, m, s, e, v),
        Line::Remove(s, e) => map_ops::change::remove(RangeKind::HalfOpen, m, s, e),
    };
    went.map_err(|why| NotMade::Refused(n, why.number()))
}

// The first line and what is behind its newline, or nothing where the text is empty.
fn first_line(text: &[u8]) -> Option<(&[u8], &[u8])>
    ensures { MatchOption result (lines_of text.now ≡ [])
        (λ cut. (lines_of text.now ≡ cut.0.now ∷ lines_of cut.1.now) × (length cut.1.now < length text.now)) }
{
    if text.is_empty() {
        return None;
    }
    match place_of(text, NEWLINE) {
        Some(end) => Some((&text[..end], &text[end + 1..])),
        None => Some((text, &text[..0])),
    }
}

// The lines of a text, done on a map.
fn lines_done(text: &[u8], m: &mut Stored) -> Result<(), NotMade>
    ensures { making (made result) m.new
        ≡ makes 0 m.old (lines_of text.now) }
{
    let mut rest = text;
    let mut n = 0;
    while let Some((line, behind)) = first_line(rest) {
        n += 1;
        line_done(line, n, m)?;
        rest = behind;
    }
    Ok(())
}

// What a text makes from nothing. It overwrites its map, so it does not check it.
pub fn make(text: &[u8], m: &mut Stored) -> Result<(), NotMade>
    ensures made { making (made result) m.new ≡ made_of text.now }
    ensures fault { TellsFault (made result) }
{
    map_ops::change::clear(m);
    lines_done(text, m)
}
