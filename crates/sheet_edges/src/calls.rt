// The calls on sheets: one order more, two sheets joined, a stream fed in pieces, and a sheet's text.
use crate::told::{put_answer, put_told};
use case_lines::{count_setting, make_order, part, read_bytes, read_sizes};

// `sheet_add`: a sheet and an order.
pub fn add(line: &[u8], figures: &mut [u32], work: &mut [i32]) {
    let mut order = [0; 450];
    let order = make_order(part(line, 2), &mut order);
    put_answer(adding::add(figures, order, work));
}

// `sheet_join`: two sheets.
pub fn join(line: &[u8], figures: &mut [u32]) {
    let mut numbers = [0; 32];
    let more = read_sizes(part(line, 2), &mut numbers);
    put_answer(sheet::join(figures, more));
}

// One piece.
fn feed_piece(part: &[u8], held: &mut [u32], first: &mut [u8], work: &mut [i32]) {
    let mut piece = [0; 450];
    let piece = read_bytes(part, &mut piece);
    put_answer(feeding::feed(held, first, piece, work));
}

// `sheet_feed`: what is held of a stream and its next pieces, the parts of the case behind its first.
pub fn feed(line: &[u8], held: &mut [u32], first: &mut [u8], work: &mut [i32]) {
    for which in 2..=count_setting(line, b's') {
        feed_piece(part(line, which), held, first, work);
    }
}

// `sheet_text`: a sheet, and whether its stream was cut.
pub fn tell(line: &[u8], figures: &[u32], text: &mut [u8]) {
    let cut = count_setting(line, b't') != 0;
    put_told(sheet_text::tell(figures, cut, text));
}
