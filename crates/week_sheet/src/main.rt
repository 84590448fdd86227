// The program: it reads a stream of packed orders from standard input, in pieces, and writes the text of its sheet to standard output.
// What it does with each piece is `feeding`'s, and the text `week_report`'s; only reading and writing are the kit's. A read that fails
// leaves no sheet.
#![tactic(auto)]

ghost use Rattle.std.specs.Prelude.{◌≡◌, ◌≤◌, length, take, IfOk};
ghost use Rattle.streams.specs.Stream.{front_room};
ghost use Rattle.feeding.specs.Feeding.{CanFeed, Fed};
ghost use Rattle.week_report.specs.Telling.{CanRead, Reached, Says};

use area::AREA;
use feeding::{FRONT, Part, feed_piece, is_over};
use sheet::none;
use sheet_text::ROOM;
use week_report::tell_held;

// The streams that are written, as the system numbers them.
const STANDARD_OUTPUT: i32 = 1;

const STANDARD_ERROR: i32 = 2;

// What a read leaves: what has come of the next entry, and how many bytes came.
#[derive(Clone, Copy)]
struct Read {
    part: Part,
    count: usize,
}

// Room for an entry's first bytes.
fn front_room() -> [u8; FRONT]
    ensures { front_room ≡ length result }
{
    [0; FRONT]
}

// One read, and the bytes that came are fed.
fn read_some<R: std::io::Read>(
    input: &mut R,
    begun: Part,
    figures: &mut [u32],
    front: &mut [u8],
    piece: &mut [u8],
    work: &mut [i32],
) -> std::io::Result<Read>
    requires { CanFeed begun figures.old front.old work.old }
    ensures fed { IfOk result (λ read. Fed begun figures.old front.old (take read.count piece.new) work.old read.part figures.new front.new work.new) }
    ensures counted { IfOk result (λ read. read.count ≤ length piece.new) }
{
    let n = input.read(piece)?;
    let part = feed_piece(begun, figures, front, &piece[..n], work);
    Ok(Read { part, count: n })
}

// Reads until nothing comes or there are too many entries; the part of an entry that has come then.
fn read_all<R: std::io::Read>(
    input: &mut R,
    figures: &mut [u32],
    front: &mut [u8],
    piece: &mut [u8],
    work: &mut [i32],
) -> std::io::Result<Part>
    requires { CanRead figures.old front.old work.old }
    ensures { IfOk result (λ part. Reached part figures.new front.new) }
{
    let mut part = Part {
        known: 0,
        size: 0,
        got: 0,
    };
    loop {
        if is_over(figures) {
            return Ok(part);
        }
        let read = read_some(input, part, figures, front, piece, work)?;
        part = read.part;
        if read.count == 0 {
            return Ok(part);
        }
    }
}

// The text of a stream, and nothing else, goes to standard output.
fn write(text: &[u8])
    requires { Says text.now }
{
    io::write_all(STANDARD_OUTPUT, text);
}

// The text for what is held of the stream that was read.
fn tell(part: Part, figures: &[u32], front: &[u8], out: &mut [u8])
    requires reached { Reached part figures.now front.now }
    requires in_bounds { 336 ≤ length out.old }
{
    let end = tell_held(part.known, figures, out);
    write(&out[..end]);
}

// A stream that cannot be read has no sheet.
fn say_failed() {
    io::write_all(
        STANDARD_ERROR,
        b"week_sheet: standard input cannot be read\n",
    );
}

fn main(rt: HostRuntime) {
    let mut input = rt.stdin();
    let mut figures = none();
    let mut front = front_room();
    let mut piece = io::large_buffer();
    let mut work = [0i32; AREA];
    let mut out = [0u8; ROOM];
    match read_all(&mut input, &mut figures, &mut front, &mut piece, &mut work) {
        Ok(part) => tell(part, &figures, &front, &mut out),
        Err(_) => say_failed(),
    }
}
