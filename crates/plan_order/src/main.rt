// The program: it reads a packed order from standard input and writes the order's text to standard output. All that matters
// is in `report`; only reading and writing are the kit's.
#![tactic(auto)]

ghost use Rattle.std.specs.Prelude.{◌≡◌, ◌<◌, ◌≤◌, length};
ghost use Rattle.planner.specs.Calls.{longest_order};
ghost use Rattle.report.specs.Report.{report_of};

use report::{ROOM, report_read};

// The streams, as the system numbers them.
const STANDARD_INPUT: i32 = 0;

const STANDARD_OUTPUT: i32 = 1;

// One byte more than the longest order has: any longer input has the text of its first bytes (`read-enough`
// of report).
const READ: usize = 437;

// The first bytes of standard input, into room for more than the longest order. A slow pipe is waited for.
fn read(input: &mut [u8]) -> usize
    requires { longest_order < length input.old }
    ensures { result ≤ length input.new }
{
    io::read_full(STANDARD_INPUT, input)
}

// The text for what was read, and nothing else goes to standard output.
fn write(input: &[u8], text: &[u8])
    requires { text.now ≡ report_of input.now }
{
    io::write_all(STANDARD_OUTPUT, text);
}

// One read, one report of what was read, one write of it.
fn main() {
    let mut input = [0u8; READ];
    let mut out = [0u8; ROOM];
    let count = read(&mut input);
    let end = report_read(&input, count, &mut out);
    write(&input[..count], &out[..end]);
}
