// Feeding a stream of orders in pieces of any size: whole entries are counted, and of the next one is held what has come. The call that
// takes numbers has an answer for any numbers and buffers. Assumes nothing.
#![tactic(auto)]

ghost use Rattle.std.specs.Prelude.{◌≡◌, ◌≤◌, length};
ghost use Rattle.sheet.specs.Sheet.{figure_count, sheet_in};
ghost use Rattle.streams.specs.Stream.{front_room, feed_count, over, state_in, part_fits, is_state};
ghost use Rattle.feeding.specs.Feeding.{part_in, put_part, CanSettle, Settles, CanTurn, Turned, CanFeed, Fed};
ghost use Rattle.feeding.specs.Feeding.{CanPut, CanTake, Taken, KeptBehind};
ghost use Rattle.feeding.specs.Calls.{FeedCall};

use adding::add_into;
use area::{AREA, clear};
use refusals::Reason;
use sheet::{MOST, is_sheet};

// How many bytes of an entry are kept, and how many numbers hold a state.
pub const FRONT: usize = 437;

pub const FEED: usize = 29;

// Where what has come of an entry stands, behind the figures.
const KNOWN: usize = 26;

const SIZE: usize = 27;

const GOT: usize = 28;

// What has come of the next entry: how many bytes of its length, the number that they say, and how many of its bytes. All three are
// counts, as the numbers that the C interface lends hold them.
#[derive(Clone, Copy)]
pub struct Part {
    pub known: u32,
    pub size: usize,
    pub got: usize,
}

// A part, and the place in the piece behind what it has taken.
#[derive(Clone, Copy)]
struct Turn {
    part: Part,
    next: usize,
}

// Too many entries.
pub fn is_over(figures: &[u32]) -> bool
    requires { figure_count ≤ length figures.now }
    ensures { result ≡ over (sheet_in figures.now) }
{
    figures[0] > MOST
}

// An entry that has come whole is counted; else the stream goes on within it.
fn settle(figures: &mut [u32], front: &[u8], size: usize, got: usize, work: &mut [i32]) -> Part
    requires { CanSettle figures.old front.now size got work.old }
    ensures { Settles figures.old front.now size got work.old result figures.new work.new }
{
    if got == size {
        add_into(figures, &front[..got.min(FRONT)], work);
        return Part {
            known: 0,
            size: 0,
            got: 0,
        };
    }
    Part {
        known: 2,
        size,
        got,
    }
}

// Bytes of an entry behind those that have come, while there is room.
fn keep(front: &mut [u8], got: usize, bytes: &[u8])
    requires { front_room ≤ length front.old }
    ensures { KeptBehind front.old got bytes.now front.new }
{
    if got < FRONT {
        let n = bytes.len().min(FRONT - got);
        // Byte by byte: the copy of a slice asks the C library for memmove, which no other call needs.
        for i in 0..n {
            front[got + i] = bytes[i];
        }
    }
}

// One turn: a byte of a length, or as much of an entry as there is.
fn one_turn(
    part: Part,
    figures: &mut [u32],
    front: &mut [u8],
    piece: &[u8],
    at: usize,
    work: &mut [i32],
) -> Turn
    requires { CanTurn part figures.old front.old piece.now at work.old }
    ensures { Turned part figures.old front.old piece.now at work.old
        result figures.new front.new work.new }
{
    let Part { known, size, got } = part;
    match known {
        0 => Turn {
            part: Part {
                known: 1,
                size: piece[at] as usize,
                got: 0,
            },
            next: at + 1,
        },
        1 => {
            let size = size * 256 + piece[at] as usize;
            Turn {
                part: settle(figures, front, size, 0, work),
                next: at + 1,
            }
        }
        _ => {
            let n = (size - got).min(piece.len() - at);
            keep(front, got, &piece[at..at + n]);
            Turn {
                part: settle(figures, front, size, got + n, work),
                next: at + n,
            }
        }
    }
}

// A piece of the stream, of any size. Once there are too many entries nothing more is taken.
pub fn feed_piece(
    begun: Part,
    figures: &mut [u32],
    front: &mut [u8],
    piece: &[u8],
    work: &mut [i32],
) -> Part
    requires { CanFeed begun figures.old front.old work.old }
    ensures { Fed begun figures.old front.old piece.now work.old
        result figures.new front.new work.new }
{
    let mut state = begun;
    let mut at = 0;
    // A turn takes as many bytes as it has use for, so no range and no iterator fits.
    while at < piece.len() {
        if is_over(figures) {
            return state;
        }
        let t = one_turn(state, figures, front, piece, at, work);
        state = t.part;
        at = t.next;
    }
    state
}

// Whether what has come of an entry is what feeding can leave.
fn part_fits(known: u32, size: u32, got: u32) -> bool
    ensures { result ≡ part_fits known size got }
{
    match known {
        0 => size == 0 && got == 0,
        1 => size <= 255 && got == 0,
        2 => size <= 65535 && got < size,
        _ => false,
    }
}

// Whether some numbers are a state's.
fn is_state(feed: &[u32], front: &[u8]) -> bool
    requires { feed_count ≤ length feed.now }
    ensures { result ≡ is_state (state_in feed.now front.now) }
{
    is_sheet(feed) && part_fits(feed[KNOWN], feed[SIZE], feed[GOT])
}

// What has come of an entry, from the numbers and to them.
fn part_in(feed: &[u32]) -> Part
    requires { feed_count ≤ length feed.now }
    ensures { result ≡ part_in feed.now }
{
    Part {
        known: feed[KNOWN],
        size: feed[SIZE] as usize,
        got: feed[GOT] as usize,
    }
}

fn put_part(feed: &mut [u32], part: Part)
    requires { CanPut feed.old part }
    ensures { feed.new ≡ put_part feed.old part }
{
    feed[KNOWN] = part.known;
    feed[SIZE] = part.size as u32;
    feed[GOT] = part.got as u32;
}

// A piece taken. Refused where there are too many entries then.
fn take_piece(
    feed: &mut [u32],
    front: &mut [u8],
    piece: &[u8],
    work: &mut [i32],
) -> Result<(), Reason>
    requires { CanTake feed.old front.old work.old }
    ensures { Taken feed.old front.old piece.now work.old
        result feed.new front.new work.new }
{
    let part = feed_piece(part_in(feed), feed, front, piece, work);
    let many = is_over(feed);
    put_part(feed, part);
    clear(work);
    if many { Err(Reason::NoSheet) } else { Ok(()) }
}

// A piece of a stream, whose state is in lent numbers and a lent front. Refused with too little room, and where the numbers are no
// state's or there are too many entries then.
pub fn feed(
    feed: &mut [u32],
    front: &mut [u8],
    piece: &[u8],
    work: &mut [i32],
) -> Result<(), Reason>
    ensures { FeedCall feed.old front.old piece.now work.old
        result feed.new front.new work.new }
{
    if feed.len() < FEED || front.len() < FRONT || work.len() < AREA {
        return Err(Reason::BufferTooShort);
    }
    if !is_state(feed, front) {
        return Err(Reason::NoSheet);
    }
    take_piece(feed, front, piece, work)
}
