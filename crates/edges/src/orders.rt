// Packed orders and heat-up: unpacking, packing, the order of a frame, and the length for a sampler's byte.
use crate::{BYTE_MARK, MARK};
use careful::lend;
use case_lines::{
    call_of, count_setting, part, put, put_buffer, put_bytes, put_count, put_refusal, put_refused,
    read_numbers, setting,
};
use framing::FrameOrder;
use packed::Refusal;
use refusals::Reason;
use unpack::Unpacked;

// What unpacking answered.
fn put_unpacked(answer: Result<Unpacked, Refusal>) {
    match answer {
        Ok(Unpacked { jobs, t0 }) => {
            put_count(jobs as u64);
            put(t0);
        }
        Err(refusal) => put_refusal(refusal),
    }
}

// `unpack`: bytes, into the room lent.
fn unpack(line: &[u8], bytes: &[u8]) {
    let mut space = [MARK; 350];
    let numbers = lend(&mut space, count_setting(line, b'm'));
    put_unpacked(unpack::unpack(bytes, numbers));
    put_buffer(numbers);
}

// What a call answered that writes into a room: how many it wrote.
pub fn put_written(answer: Result<usize, Refusal>) {
    match answer {
        Ok(written) => put_count(written as u64),
        Err(refusal) => put_refusal(refusal),
    }
}

// `pack`: a bus-free time and numbers, into the room lent.
fn pack(line: &[u8]) {
    let mut numbers = [0; 350];
    let numbers = read_numbers(part(line, 1), &mut numbers);
    let mut space = [BYTE_MARK; 450];
    let bytes = lend(&mut space, count_setting(line, b'm'));
    put_written(pack::pack(setting(line, b'f'), numbers, bytes));
    put_bytes(bytes);
}

// What making a frame's order answered.
fn put_framed(answer: Result<FrameOrder, Refusal>) {
    match answer {
        Ok(FrameOrder { bytes, frame }) => {
            put_count(bytes as u64);
            put_count(frame as u64);
        }
        Err(refusal) => put_refusal(refusal),
    }
}

// `frame`: numbers of repeating jobs, into the room lent.
fn frame(line: &[u8]) {
    let mut numbers = [0; 300];
    let numbers = read_numbers(part(line, 1), &mut numbers);
    let mut space = [BYTE_MARK; 400];
    let bytes = lend(&mut space, count_setting(line, b'm'));
    put_framed(framing::frame(numbers, bytes));
    put_bytes(bytes);
}

// What the heat-up table answered.
fn put_heating(answer: Result<u32, Reason>) {
    match answer {
        Ok(seconds) => put_count(seconds as u64),
        Err(reason) => put_refused(reason.number()),
    }
}

// `heat`: a byte.
fn heat_up(line: &[u8]) {
    put_heating(heat::heat_up((count_setting(line, b'e') % 256) as u8));
}

// Runs a case that is for one of these calls; false for any other.
pub fn run(line: &[u8], bytes: &[u8]) -> bool {
    match call_of(line) {
        b"unpack" => unpack(line, bytes),
        b"pack" => pack(line),
        b"frame" => frame(line),
        b"heat" => heat_up(line),
        _ => return false,
    }
    true
}
