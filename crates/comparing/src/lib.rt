// What the programs share that compare calls with a reference: an order's bytes, marks that show what a call
// wrote, and counts of what was met. Every function is safe and ends.
#![tactic(auto)]

use careful::{all_are, at, front, more};
use packed::Refusal;
use refusals::Reason;

// What lent numbers hold before a call, so that every number written shows.
pub const MARK: i32 = 7_777;

// The numbers of the work area.
const AREA: usize = 14_749;

// The bytes of an order, packed to the front of a space; an order that is refused has none.
pub fn pack_order<'a>(t0: i32, numbers: &[i32], space: &'a mut [u8]) -> &'a [u8] {
    let size = pack::pack(t0, numbers, space).unwrap_or(0);
    front(space, size)
}

// The kind of a packed order's records, which the last byte of its header says.
pub fn records_kind(bytes: &[u8]) -> Option<u32> {
    bytes.get(3).map(|kind| u32::from(*kind))
}

// The number that a reason must be told by (R24), written apart from the library's.
fn number_of(reason: Reason) -> u32 {
    match reason {
        Reason::OrderTooShort => 1,
        Reason::UnknownKind => 2,
        Reason::TooManyJobs => 3,
        Reason::WrongLength => 4,
        Reason::BusFreeOutOfRange => 5,
        Reason::JobOutOfRange => 6,
        Reason::NumberRepeated => 7,
        Reason::ProfileNotValid => 8,
        Reason::TooMuchWeight => 9,
        Reason::BufferTooShort => 10,
        Reason::NoFeasibleChoice => 11,
        Reason::CellTooCold => 12,
        Reason::NotOfHalves => 13,
        Reason::PlanWrongLength => 14,
        Reason::PlanStrayBits => 15,
        Reason::RepeatingNotValid => 16,
        Reason::FrameTooLong => 17,
        Reason::NoSheet => 18,
        Reason::EveryPackZero => 19,
    }
}

// Whether a refusal gives this reason at this place; none of the orders compared has a field out of range.
pub fn says(refusal: Refusal, reason: Reason, place: usize) -> bool {
    refusal.number() == number_of(reason) && refusal.place() == place && refusal.figure() == 0
}

// Whether a call's answer is the one expected; a refusal is at no place.
pub fn answers<T: Copy + PartialEq>(
    answer: Result<T, Refusal>,
    expected: Result<T, Reason>,
) -> bool {
    match (answer, expected) {
        (Ok(given), Ok(wanted)) => given == wanted,
        (Err(refusal), Err(reason)) => says(refusal, reason, 0),
        _ => false,
    }
}

// Whether a call left the work area as it should, full of one number, and what is past it as it was.
pub fn leaves(work: &[i32], number: i32) -> bool {
    all_are(front(work, AREA), number) && at(work, AREA) == MARK
}

// Counts one more where something holds.
pub fn count(so_far: &mut u64, holds: bool) {
    *so_far = more(*so_far, holds as u64);
}

// Writes a count behind a word.
pub fn write_figure(word: &[u8], count: u64) {
    io::write_all(1, word);
    io::print_decimal(1, count);
}

// The same on a line of its own.
pub fn write_count(word: &[u8], count: u64) {
    write_figure(word, count);
    io::write_all(1, b"\n");
}
