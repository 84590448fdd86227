// Numbers read, written, cut short and added with an answer for every place and every number, so that
// trial programs carry no bounds of their own. Every function is safe and ends. Assumes nothing.
#![tactic(auto)]

ghost use Rattle.std.specs.Prelude.{◌≤◌, ◌<◌, length, IfSome};

// The numbers of a sum are no less than the first and no greater than the second.
const LOW: i32 = -1_000_000;

const HIGH: i32 = 1_000_000;

// The counts of a sum are no greater than this.
const MANY: u64 = 1_000_000_000;

// The number at a place, 0 past the end.
pub fn at(numbers: &[i32], place: usize) -> i32 {
    numbers.get(place).copied().unwrap_or(0)
}

// Puts a number at a place; past the end nothing is written.
pub fn put(numbers: &mut [i32], place: usize, number: i32) {
    if let Some(slot) = numbers.get_mut(place) {
        *slot = number;
    }
}

// The first so many items, or all where there are fewer.
pub fn front<T>(items: &[T], many: usize) -> &[T] {
    &items[..many.min(items.len())]
}

// The same, lent to be written.
pub fn lend<T>(items: &mut [T], many: usize) -> &mut [T] {
    let end = many.min(items.len());
    &mut items[..end]
}

// The first place, from a place on, that holds another number than one.
pub fn first_other(numbers: &[i32], number: i32, from: usize) -> Option<usize>
    ensures behind { IfSome result (λ place. from ≤ place) }
    ensures within { IfSome result (λ place. place < length numbers.now) }
{
    for place in from..numbers.len() {
        if numbers[place] != number {
            return Some(place);
        }
    }
    None
}

// Whether all numbers are one number. There is no way out but the end, so that it is compiled to vectors:
// whole work areas are looked through after every call.
pub fn all_are(numbers: &[i32], number: i32) -> bool {
    numbers.iter().fold(true, |all, x| all & (*x == number))
}

// The sum of two numbers, 0 where one is too far from 0.
pub fn plus(one: i32, other: i32) -> i32 {
    let near = LOW..=HIGH;
    if near.contains(&one) && near.contains(&other) {
        return one + other;
    }
    0
}

// A count as a number, 0 where it is too great. This and those behind it have limits of their own, which no `try_from` and no saturating
// sum has.
pub fn number_of(count: u64) -> i32 {
    if count < 1_000_000 { count as i32 } else { 0 }
}

// A number as a count, 0 where it is below 0 or too great.
pub fn count_of(number: i32) -> u64
    ensures { result ≤ 1000000 }
{
    if number < 0 || number > HIGH {
        return 0;
    }
    number as u64
}

// Whether a count is a number.
pub fn is_count(count: u64, number: i32) -> bool {
    count < 1_000_000 && count as i32 == number
}

// The sum of two counts, or the first where one is too great.
pub fn more(count: u64, by: u64) -> u64 {
    if count > MANY || by > MANY {
        return count;
    }
    count + by
}

// A job of an order of numbers, which has seven for each.
#[derive(Clone, Copy, Default)]
pub struct Job {
    pub number: i32,
    pub pack: i32,
    pub critical: bool,
    pub weight: i32,
    pub ready: i32,
    pub length: i32,
    pub deadline: i32,
}

impl From<[i32; 7]> for Job {
    fn from([number, pack, critical, weight, ready, length, deadline]: [i32; 7]) -> Job {
        Job {
            number,
            pack,
            critical: critical == 1,
            weight,
            ready,
            length,
            deadline,
        }
    }
}

impl From<Job> for [i32; 7] {
    fn from(job: Job) -> [i32; 7] {
        [
            job.number,
            job.pack,
            job.critical as i32,
            job.weight,
            job.ready,
            job.length,
            job.deadline,
        ]
    }
}

// The numbers of an order, job by job.
pub fn jobs_of(numbers: &[i32]) -> &[[i32; 7]] {
    numbers.as_chunks().0
}

// The job at a place of an order; past the end one of zeros.
pub fn job_at(numbers: &[i32], place: usize) -> Job {
    jobs_of(numbers)
        .get(place)
        .copied()
        .map(Job::from)
        .unwrap_or_default()
}

// Puts a job at a place; past the end nothing is written.
pub fn put_job(numbers: &mut [i32], place: usize, job: Job) {
    if let Some(slot) = numbers.as_chunks_mut().0.get_mut(place) {
        *slot = job.into();
    }
}
