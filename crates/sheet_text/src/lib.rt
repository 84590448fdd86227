// The text of a sheet over orders, written into a lent buffer. Any numbers and any buffer have an answer. Assumes nothing.
#![tactic(auto)]

ghost use Rattle.std.specs.Prelude.{take};
ghost use Rattle.text.specs.Buffer.{Wrote};
ghost use Rattle.text.specs.Writing.{Room, Writes};
ghost use Rattle.sheet.specs.Sheet.{sum_count, sheet_in};
ghost use Rattle.sheet_text.specs.SheetText.{lines, top_line, fraction_line, last_line, sheet_text, TellCall};
ghost use Rattle.sheet_text.specs.Writing.{CanList, CanPut};

use fractions::lowest_terms;
use refusals::Reason;
use sheet::{FEASIBLE, FIGURES, KEPT, OFFERED, PLACE, SUMS, TOP, is_sheet};
use text::Writer;

// The bytes between the figures of a line and at its end, and the line where there is nothing to tell.
const SPACE: u8 = b' ';

const SLASH: u8 = b'/';

const NEWLINE: u8 = b'\n';

const NOTHING: &[u8] = b"-\n";

// The refusal of an order that has no plan.
const NO_PLAN: usize = 11;

// The room that is wanted for a text, in bytes.
pub const ROOM: usize = 336;

// The sums, one a line: at most eleven bytes each.
fn put_sums(text: &mut Writer, figures: &[u32])
    requires { CanList figures.now text.old }
    ensures { Writes (lines (take sum_count figures.now)) 264 text.old text.new }
{
    for value in &figures[..SUMS] {
        text.figure(*value, NEWLINE);
    }
}

// The line of the greatest point total, told by one more than it, and of its place: at most 22 bytes.
fn put_top(text: &mut Writer, top: u32, place: u32)
    requires { Room 22 text.old }
    ensures { Writes (top_line top place) 22 text.old text.new }
{
    if top == 0 {
        text.bytes(NOTHING);
    } else {
        text.figure(top - 1, SPACE);
        text.figure(place, NEWLINE);
    }
}

// The line of a fraction: at most 22 bytes.
fn put_fraction(text: &mut Writer, upper: u32, lower: u32)
    requires { Room 22 text.old }
    ensures { Writes (fraction_line upper lower) 22 text.old text.new }
{
    if lower == 0 {
        text.bytes(NOTHING);
    } else {
        let fraction = lowest_terms(upper, lower);
        text.figure(fraction.upper, SLASH);
        text.figure(fraction.lower, NEWLINE);
    }
}

// The last line: at most six bytes.
fn put_last(text: &mut Writer, cut: bool)
    requires { Room 6 text.old }
    ensures { Writes (last_line cut) 6 text.old text.new }
{
    if cut {
        text.bytes(b"cut\n");
    } else {
        text.bytes(b"whole\n");
    }
}

// The text of a sheet, at the front.
fn put_sheet(out: &mut [u8], figures: &[u32], cut: bool) -> usize
    requires { CanPut figures.now out.old }
    ensures { Wrote out.old 0 (sheet_text (sheet_in figures.now) cut) out.new result }
{
    let refused = figures[NO_PLAN];
    let feasible = figures[FEASIBLE];
    let offered = figures[OFFERED];
    let able = feasible + refused;
    let lost = offered - figures[KEPT];
    let mut text = Writer { out, at: 0 };
    put_sums(&mut text, figures);
    put_top(&mut text, figures[TOP], figures[PLACE]);
    put_fraction(&mut text, feasible, able);
    put_fraction(&mut text, lost, offered);
    put_last(&mut text, cut);
    text.at
}

// The text of the sheet that some numbers say, at the front of `text`, and how many bytes it has. Refused with fewer than 26 numbers or
// less than 336 bytes of room, and where the numbers are no sheet's; then nothing is written.
pub fn tell(figures: &[u32], cut: bool, text: &mut [u8]) -> Result<usize, Reason>
    ensures { TellCall figures.now cut text.old result text.new }
{
    if figures.len() < FIGURES || text.len() < ROOM {
        return Err(Reason::BufferTooShort);
    }
    if !is_sheet(figures) {
        return Err(Reason::NoSheet);
    }
    Ok(put_sheet(text, figures, cut))
}
