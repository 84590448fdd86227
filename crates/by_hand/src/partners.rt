// Orders of halves: which job offends, found by asking every earlier job whether it is the partner.
use careful::{Job, count_of, is_count, jobs_of, plus};

// The highest number of a critical half, and how far above it its optional half's number lies.
const HIGHEST_HALF: i32 = 31;

const APART: i32 = 32;

// The seconds that an optional half takes for each weight.
const PER_WEIGHT: u64 = 60;

// Whether a job is the critical half whose optional one has a number.
fn is_partner(half: Job, number: i32) -> bool {
    half.critical && half.number <= HIGHEST_HALF && plus(half.number, APART) == number
}

// Whether a length is so many seconds for each weight.
fn is_optional_length(length: i32, weight: i32) -> bool {
    is_count(PER_WEIGHT * count_of(weight), length)
}

// Whether a job behind others offends.
fn offends(earlier: &[[i32; 7]], job: Job) -> bool {
    if job.critical {
        return job.number > HIGHEST_HALF;
    }
    let mut partners = earlier.iter().copied().map(Job::from);
    !is_optional_length(job.length, job.weight)
        || !partners.any(|half| is_partner(half, job.number))
}

// The first offending place, if there is one.
pub fn first_offending(numbers: &[i32]) -> Option<usize> {
    let jobs = jobs_of(numbers);
    for place in 0..jobs.len() {
        if offends(&jobs[..place], Job::from(jobs[place])) {
            return Some(place);
        }
    }
    None
}
