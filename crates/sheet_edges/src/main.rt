// Answers the cases of sheets on standard input, one a line, in the form of `edges`: the case's name, what the
// call answered, and behind bars all that the lent buffers hold after it: figures, bytes and the work area.
#![tactic(auto)]

mod calls;
mod told;

use careful::lend;
use case_lines::{
    call_of, count_setting, is_case, part, put_buffer, put_name, put_word, read_sizes,
};
use told::{put_figures, put_room};

// What the work area holds before a call, and what bytes are written over.
const WORK_MARK: i32 = -77_777;

const BYTE_MARK: u8 = 170;

// The call that a case is for, on what is lent.
fn run(line: &[u8], figures: &mut [u32], bytes: &mut [u8], work: &mut [i32]) {
    match call_of(line) {
        b"sheet_add" => calls::add(line, figures, work),
        b"sheet_join" => calls::join(line, figures),
        b"sheet_feed" => calls::feed(line, figures, bytes, work),
        b"sheet_text" => calls::tell(line, figures, bytes),
        _ => put_word(b" no such call"),
    }
}

// The same, from a case: its first part tells the figures. A call that takes no bytes or no work area is lent
// none.
fn run_case(line: &[u8]) {
    let mut numbers = [0; 32];
    let mut out = [BYTE_MARK; 450];
    let mut space = [WORK_MARK; 15_000];
    let figures = read_sizes(part(line, 1), &mut numbers);
    let bytes = lend(&mut out, count_setting(line, b'm'));
    let work = lend(&mut space, count_setting(line, b'k'));
    run(line, figures, bytes, work);
    put_figures(figures);
    put_room(bytes);
    put_buffer(work);
}

// One line: a case's name and its answer.
fn answer(line: &[u8]) {
    if is_case(line) {
        put_name(line);
        run_case(line);
        put_word(b"\n");
    }
}

fn main() {
    let mut input = [0; 65_536];
    let n = io::read_full(0, &mut input);
    for line in input[..n].split(|byte| *byte == b'\n') {
        answer(line);
    }
}
