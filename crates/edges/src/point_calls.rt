// Profiles: extending one by an order, the better of two, and looking one up, as numbers and as records.
use crate::orders::put_written;
use crate::{MARK, with_room};
use careful::lend;
use case_lines::{
    call_of, count_setting, make_profile, part, place_setting, put_buffer, put_count, put_refused,
    put_word, read_numbers, setting,
};
use point_records::Point;
use refusals::Reason;

// What stands behind the records that a case tells, in time and weight: no point has it.
const NO_POINT: i32 = 100_016;

// `extend`: an order and a profile, with room for points and a work area lent.
fn extend(line: &[u8], order: &[u8]) {
    let mut numbers = [0; 604];
    let profile = make_profile(part(line, 2), &mut numbers);
    with_room(line, |points, work| {
        put_written(extending::extend(profile, order, points, work))
    });
}

// What better-of answered.
fn put_joined(answer: Result<usize, Reason>) {
    match answer {
        Ok(points) => put_count(points as u64),
        Err(reason) => put_refused(reason.number()),
    }
}

// `better`: two profiles, with room for points lent.
fn better(line: &[u8]) {
    let mut one = [0; 604];
    let mut other = [0; 604];
    let mut out = [MARK; 700];
    let first = make_profile(part(line, 1), &mut one);
    let second = make_profile(part(line, 2), &mut other);
    let points = lend(&mut out, count_setting(line, b'm'));
    put_joined(better::better_of(first, second, points));
    put_buffer(points);
}

// What a lookup answered.
fn put_found(answer: Result<Option<u32>, Reason>) {
    match answer {
        Ok(Some(weight)) => put_count(weight as u64),
        Ok(None) => put_word(b" none"),
        Err(reason) => put_refused(reason.number()),
    }
}

// `lookup`: a profile, at a time.
fn lookup(line: &[u8]) {
    let mut numbers = [0; 604];
    let profile = make_profile(part(line, 1), &mut numbers);
    put_found(profiles::lookup(profile, setting(line, b't')));
}

// Eight records, from alternating numbers.
fn eight(numbers: &[i32; 16]) -> [Point; 8] {
    let mut points = [Point { time: 0, weight: 0 }; 8];
    for (point, pair) in points.iter_mut().zip(numbers.chunks_exact(2)) {
        point.time = pair[0];
        point.weight = pair[1];
    }
    points
}

// `records`: so many of eight records, at a time.
fn records(line: &[u8]) {
    let mut numbers = [NO_POINT; 16];
    read_numbers(part(line, 1), &mut numbers);
    let count = place_setting(line, b'f');
    put_found(point_records::lookup_among(eight(&numbers), count, setting(line, b't')));
}

// Runs a case that is for one of these calls; false for any other.
pub fn run(line: &[u8], order: &[u8]) -> bool {
    match call_of(line) {
        b"extend" => extend(line, order),
        b"better" => better(line),
        b"lookup" => lookup(line),
        b"records" => records(line),
        _ => return false,
    }
    true
}
