// Makes what the calls are given: orders and profiles, from the parts of a case.
use crate::lines::{read_bytes, read_numbers};
use careful::{lend, plus};
use comparing::pack_order;

// The most points of a stair: one more than a profile may have.
const STEPS: i32 = 302;

// The order that a part of a case tells, by its bytes or by its numbers: a bus-free time, and seven for each job. An
// order that is refused is told by its bytes; by its numbers it has none.
pub fn make_order<'a>(part: &[u8], bytes: &'a mut [u8]) -> &'a [u8] {
    if part.starts_with(b"b") {
        return read_bytes(part, bytes);
    }
    let mut numbers = [0; 350];
    match read_numbers(part, &mut numbers) {
        [t0, jobs @ ..] => pack_order(*t0, jobs, bytes),
        [] => &[],
    }
}

// Points of weight 0, 1, 2 and so on, so many seconds apart.
fn put_stair(first: i32, apart: i32, points: i32, numbers: &mut [i32]) -> &[i32] {
    let mut time = first;
    let points = points.clamp(0, STEPS);
    let stair = lend(numbers, 2 * points as usize);
    for (point, weight) in stair.chunks_exact_mut(2).zip(0..points) {
        point[0] = time;
        point[1] = weight;
        time = plus(time, apart);
    }
    stair
}

// The profile that a part of a case tells, by its points or as a stair.
pub fn make_profile<'a>(part: &[u8], numbers: &'a mut [i32]) -> &'a [i32] {
    if part.starts_with(b"s") {
        let mut stair = [0; 3];
        read_numbers(part, &mut stair);
        let [first, apart, points] = stair;
        return put_stair(first, apart, points, numbers);
    }
    read_numbers(part, numbers)
}
