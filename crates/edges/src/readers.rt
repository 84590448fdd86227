// The reader: opening one over an order, a step from a place, and both by the struct that stands over the
// caller's bytes.
use case_lines::{call_of, place_setting, put_moved, put_opened};

// `open`: an order.
fn open(order: &[u8]) {
    put_opened(reader::open(order));
}

// `step`: an order, from a place.
fn step(line: &[u8], order: &[u8]) {
    put_moved(reader::step(order, place_setting(line, b't')));
}

// `read`: a reader is opened over an order, and takes a step from a place.
fn read(line: &[u8], order: &[u8]) {
    let reading = reader_struct::read_at(order, place_setting(line, b't'));
    put_opened(reading.opened);
    put_moved(reading.moved);
}

// Runs a case that is for one of these calls; false for any other.
pub fn run(line: &[u8], order: &[u8]) -> bool {
    match call_of(line) {
        b"open" => open(order),
        b"step" => step(line, order),
        b"read" => read(line, order),
        _ => return false,
    }
    true
}
