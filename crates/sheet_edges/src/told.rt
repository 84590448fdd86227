// Writes what the calls answered, and the buffers that are no numbers with sign.
use case_lines::{put_buffer, put_count, put_refused, put_word};
use refusals::Reason;

// What a call that counts answered.
pub fn put_answer(done: Result<(), Reason>) {
    match done {
        Ok(()) => put_word(b" counted"),
        Err(reason) => put_refused(reason.number()),
    }
}

// What telling answered.
pub fn put_told(told: Result<usize, Reason>) {
    match told {
        Ok(bytes) => put_count(bytes as u64),
        Err(reason) => put_refused(reason.number()),
    }
}

// A bar and all figures.
pub fn put_figures(figures: &[u32]) {
    put_word(b" |");
    for figure in figures {
        put_count(*figure as u64);
    }
}

// A bar and all bytes that a buffer holds, run by run; nothing of an empty one.
pub fn put_room(bytes: &[u8]) {
    let mut numbers = [0; 450];
    for (number, byte) in numbers.iter_mut().zip(bytes) {
        *number = *byte as i32;
    }
    put_buffer(&numbers[..bytes.len().min(450)]);
}
