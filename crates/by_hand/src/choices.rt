// Choices of an order run one by one: what a choice comes to, the best of them, and its figures.
use careful::{Job, jobs_of, more, plus};
use std::cmp::Ordering;

// The most jobs of an order.
const MOST: usize = 10;

// The seconds that the contactor rests after every job.
pub const REST: i32 = 15;

// What stands for the start of a job that is left out: the number that C is given, not a none.
pub const LEFT_OUT: i32 = 200_000;

// What running a choice comes to: whether it may be run at all, when the bus is free after it, and the
// weight kept.
#[derive(Clone, Copy)]
pub struct Outcome {
    pub feasible: bool,
    pub free: i32,
    pub weight: i32,
}

impl Outcome {
    // With a job more that is left out: a critical one may not be.
    fn leave(self, job: Job) -> Outcome {
        Outcome {
            feasible: self.feasible && !job.critical,
            ..self
        }
    }

    // With a job more that is kept: it finishes by its deadline, or the choice may not be run; then the
    // contactor rests.
    fn keep(self, job: Job) -> Outcome {
        let finish = plus(self.free.max(job.ready), job.length);
        Outcome {
            feasible: self.feasible && finish <= job.deadline,
            free: plus(finish, REST),
            weight: plus(self.weight, job.weight),
        }
    }
}

// The best choice so far, and whether another has the same weight and bus-free time.
#[derive(Clone, Copy)]
pub struct Best {
    pub choice: u32,
    pub free: i32,
    pub weight: i32,
    pub tied: bool,
}

// A choice's mask, the highest bit for place 0, how many jobs it keeps, the weight it loses and the optional
// seconds: the lengths of the non-critical jobs that it leaves out.
#[derive(Clone, Copy)]
pub struct Tally {
    pub mask: u64,
    pub kept: u64,
    pub lost: i32,
    pub seconds: i32,
}

impl Tally {
    // With a job more that is kept, by its bit.
    fn keep(self, bit: u64) -> Tally {
        Tally {
            mask: self.mask | bit,
            kept: more(self.kept, 1),
            ..self
        }
    }

    // With a job more that is left out.
    fn leave(self, job: Job) -> Tally {
        let optional = if job.critical { 0 } else { job.length };
        Tally {
            lost: plus(self.lost, job.weight),
            seconds: plus(self.seconds, optional),
            ..self
        }
    }
}

// How many choices so many jobs have.
pub fn choices(jobs: usize) -> u32 {
    1u32 << jobs.min(MOST)
}

// Jobs run by a choice, the bus free from a time on.
pub fn run(jobs: &[[i32; 7]], from: i32, choice: u32) -> Outcome {
    let mut outcome = Outcome {
        feasible: true,
        free: from,
        weight: 0,
    };
    let mut left = choice;
    for numbers in jobs {
        let job = Job::from(*numbers);
        outcome = if left % 2 == 1 {
            outcome.keep(job)
        } else {
            outcome.leave(job)
        };
        left /= 2;
    }
    outcome
}

// The better of the best so far and a choice that comes to an outcome: heavier, or as heavy and earlier.
// The best so far stays where both are the same: of two choices the lesser number leaves out the last
// job in which they differ.
fn better(best: Option<Best>, choice: u32, outcome: Outcome) -> Option<Best> {
    if !outcome.feasible {
        return best;
    }
    let Outcome { free, weight, .. } = outcome;
    let new = Best {
        choice,
        free,
        weight,
        tied: false,
    };
    let Some(old) = best else { return Some(new) };
    Some(match (weight, old.free).cmp(&(old.weight, free)) {
        Ordering::Greater => new,
        Ordering::Equal => Best { tied: true, ..old },
        Ordering::Less => old,
    })
}

// The best of all choices, in the sequence of their numbers; none where no choice may be run.
pub fn best_choice(numbers: &[i32], t0: i32) -> Option<Best> {
    let jobs = jobs_of(numbers);
    let mut best = None;
    for choice in 0..choices(jobs.len()) {
        best = better(best, choice, run(jobs, t0, choice));
    }
    best
}

// The starts of a choice, in place order.
pub fn write_starts(numbers: &[i32], t0: i32, choice: u32, starts: &mut [i32]) {
    let mut free = t0;
    let mut left = choice;
    for (start, numbers) in starts.iter_mut().zip(jobs_of(numbers)) {
        let job = Job::from(*numbers);
        *start = LEFT_OUT;
        if left % 2 == 1 {
            *start = free.max(job.ready);
            free = plus(plus(*start, job.length), REST);
        }
        left /= 2;
    }
}

// The tally of a choice over all jobs.
pub fn tally_of(numbers: &[i32], choice: u32) -> Tally {
    let mut tally = Tally {
        mask: 0,
        kept: 0,
        lost: 0,
        seconds: 0,
    };
    let mut bit = 1u64 << 63;
    let mut left = choice;
    for numbers in jobs_of(numbers) {
        tally = if left % 2 == 1 {
            tally.keep(bit)
        } else {
            tally.leave(Job::from(*numbers))
        };
        bit /= 2;
        left /= 2;
    }
    tally
}
