// Damages to orders of halves: a drawn job is spoiled so that it, or the one whose partner it is, offends.
use crate::kinds::Kind;
use crate::seeds::Seed;
use careful::{Job, job_at, plus, put_job};

// The length put a second off.
fn spoil_length(seed: &mut Seed, job: Job) -> Job {
    let side = seed.draw_from(0, 2);
    Job {
        length: plus(job.length, plus(plus(side, side), -1)),
        ..job
    }
}

// The number put at one side of the highest number of a critical half or the other, where no half has it.
fn spoil_number(seed: &mut Seed, job: Job) -> Job {
    Job {
        number: seed.draw_from(31, 2),
        ..job
    }
}

// A critical job made optional, of weight 1, or an optional one critical.
fn spoil_mark(job: Job) -> Job {
    Job {
        critical: !job.critical,
        weight: job.critical as i32,
        ..job
    }
}

// A job with the pack and the window of another, which stay where they are.
fn in_place_of(job: Job, other: Job) -> Job {
    Job {
        number: job.number,
        critical: job.critical,
        weight: job.weight,
        length: job.length,
        ..other
    }
}

// Two jobs exchanged.
fn exchange(numbers: &mut [i32], place: usize, other: usize) {
    let here = job_at(numbers, place);
    let there = job_at(numbers, other);
    put_job(numbers, other, in_place_of(here, there));
    put_job(numbers, place, in_place_of(there, here));
}

// One damage to an order of halves, or none, drawn: a job is spoiled in one of three ways, or
// exchanged with another or with the one where an optional half's partner is. It may still be of halves.
pub fn draw_damage(seed: &mut Seed, kind: Kind, numbers: &mut [i32]) {
    let jobs = (numbers.len() / 7) as u64;
    let place = seed.draw_byte(jobs) as usize;
    let other = seed.draw_byte(jobs) as usize;
    let job = job_at(numbers, place);
    match seed.draw(8) {
        0 => put_job(numbers, place, spoil_length(seed, job)),
        1 => put_job(numbers, place, spoil_number(seed, job)),
        2 => put_job(numbers, place, spoil_mark(job)),
        3 => exchange(numbers, place, other),
        4 => {
            let lag = kind.lag.unwrap_or(0) as usize;
            exchange(numbers, place, place.checked_sub(lag).unwrap_or(place));
        }
        _ => {}
    }
}
