// Writes answers and all that buffers hold. A long run of one number is written as the number, a star and
// how often it stands.
use crate::lines::before;
use fields::Job;
use packed::Refusal;
use reader::Moved;
use text::Writer;

// How many of one number are a long run.
const LONG: usize = 10;

// A word.
pub fn put_word(word: &[u8]) {
    io::write_all(1, word);
}

// A case's name.
pub fn put_name(line: &[u8]) {
    put_word(before(line, b':'));
    put_word(b":");
}

// A space and a number.
pub fn put(z: i32) {
    let mut figures = [0; 12];
    let mut writer = Writer {
        out: &mut figures,
        at: 0,
    };
    writer.byte(b' ');
    writer.number(z);
    let end = writer.at;
    io::write_all(1, &figures[..end]);
}

// A space and a count.
pub fn put_count(n: u64) {
    io::write_all(1, b" ");
    io::print_decimal(1, n);
}

// A refusal.
pub fn put_refused(number: u32) {
    put_word(b" refused");
    put_count(number as u64);
}

// A refusal and its field, where no place is told.
pub fn put_refused_field(refusal: Refusal) {
    put_refused(refusal.number());
    put_count(refusal.figure() as u64);
}

// A refusal, its place and its field.
pub fn put_refusal(refusal: Refusal) {
    put_refused(refusal.number());
    put_count(refusal.place() as u64);
    put_count(refusal.figure() as u64);
}

// A run of one number: each of its numbers, or of a long one how many they are.
fn put_run(run: &[i32]) {
    match run {
        [number, ..] if run.len() >= LONG => {
            put(*number);
            put_word(b"*");
            io::print_decimal(1, run.len() as u64);
        }
        _ => {
            for number in run {
                put(*number);
            }
        }
    }
}

// A bar and all that a buffer holds; nothing of an empty one.
pub fn put_buffer(numbers: &[i32]) {
    if numbers.is_empty() {
        return;
    }
    put_word(b" |");
    for run in numbers.chunk_by(|one, other| one == other) {
        put_run(run);
    }
}

// Bytes, one behind the other.
fn put_each(bytes: &[u8]) {
    for byte in bytes {
        put_count(*byte as u64);
    }
}

// How many bytes a part has, and the bytes.
pub fn put_part(part: &[u8]) {
    put_word(b" part");
    put_count(part.len() as u64);
    put_each(part);
}

// A bar and all bytes that a buffer holds.
pub fn put_bytes(bytes: &[u8]) {
    put_word(b" |");
    put_each(bytes);
}

// A job's numbers.
fn put_job(job: Job) {
    put_word(b" job");
    put(job.number);
    put(job.pack);
    put(job.critical);
    put(job.weight);
    put(job.ready);
    put(job.length);
    put(job.deadline);
}

// What opening a reader gave: it refuses with no place and no field.
pub fn put_opened(opened: Result<usize, Refusal>) {
    match opened {
        Ok(count) => put_count(count as u64),
        Err(refusal) => put_refused(refusal.number()),
    }
}

// What a step of a reader gave, and the place after it.
pub fn put_moved(moved: Moved) {
    match moved.answer {
        Ok(Some(job)) => put_job(job),
        Ok(None) => put_word(b" end"),
        Err(refusal) => put_refusal(refusal),
    }
    put_count(moved.place as u64);
}
