// Answers the cases of standard input, one a line: a name that begins with the call's, the rooms that are
// lent and the time, the place or the byte, and behind bars what the call is given. The answer is the name,
// what the call answered, and behind bars all that the lent buffers hold after it. A call more is a function
// that takes a case's line and the bytes that its parts tell, and a word in the `run` of its file.
#![tactic(auto)]

mod choices;
mod orders;
mod packed_plans;
mod plans;
mod point_calls;
mod readers;

use careful::lend;
use case_lines::{count_setting, is_case, make_order, part, put_buffer, put_name, put_word};

// What starts, points and jobs are written over, and what the work area holds before a call: a time so
// early that a call which took it for one of its own would go wrong.
pub const MARK: i32 = 7_777;

pub const WORK_MARK: i32 = -77_777;

// What bytes are written over.
pub const BYTE_MARK: u8 = 170;

// Runs a call with a work area lent, and writes what the area holds after it.
pub fn with_work<F: FnOnce(&mut [i32])>(line: &[u8], call: F)
    requires { F.IsAlwaysCallable call }
{
    let mut space = [WORK_MARK; 15_000];
    let work = lend(&mut space, count_setting(line, b'k'));
    call(work);
    put_buffer(work);
}

// The same with room for starts or points lent before it.
pub fn with_room<F: FnOnce(&mut [i32], &mut [i32])>(line: &[u8], call: F)
    requires { F.IsAlwaysCallable call }
{
    let mut out = [MARK; 700];
    let mut space = [WORK_MARK; 15_000];
    let room = lend(&mut out, count_setting(line, b'm'));
    let work = lend(&mut space, count_setting(line, b'k'));
    call(room, work);
    put_buffer(room);
    put_buffer(work);
}

// The call that a case is for, in the file that has it, on the orders or other bytes that the case tells.
fn run(line: &[u8], first: &[u8], second: &[u8]) -> bool {
    orders::run(line, first)
        || plans::run(line, first)
        || packed_plans::run(line, first, second)
        || point_calls::run(line, first)
        || choices::run(line, first, second)
        || readers::run(line, first)
}

// The same, from the parts of the case; a part that tells no bytes has none that are used.
fn run_case(line: &[u8]) -> bool {
    let mut one = [0; 450];
    let mut other = [0; 450];
    let first = make_order(part(line, 1), &mut one);
    let second = make_order(part(line, 2), &mut other);
    run(line, first, second)
}

// One line: a case's name and its answer.
fn answer(line: &[u8]) {
    if is_case(line) {
        put_name(line);
        if !run_case(line) {
            put_word(b" no such call");
        }
        put_word(b"\n");
    }
}

// Room for the lines, made apart: a list of so many zeros in `main` itself is too deep for its proof.
fn room() -> [u8; 524_288] {
    [0; 524_288]
}

fn main() {
    let mut input = room();
    let n = io::read_full(0, &mut input);
    for line in input[..n].split(|byte| *byte == b'\n') {
        answer(line);
    }
}
