// An order made easier: what is eased is drawn, from nothing at all to every time and length. A check by the
// numbers of both says whether the second order is easier than the first.
use crate::seeds::Seed;
use crate::{Order, in_time};
use careful::{Job, count_of, front, jobs_of, more, number_of, plus, put_job};

// The highest number that a job may have, and the most seconds by which anything is eased.
const HIGHEST: u64 = 63;

const MOST: u64 = 10_000;

// Which times and lengths are eased.
#[derive(Clone, Copy, PartialEq, Eq)]
enum Part {
    Length,
    Ready,
    Deadline,
    Free,
    All,
}

// What is eased of an order: one job or all, one part or all, each by less than so many seconds. Packs are
// drawn from so many.
#[derive(Clone, Copy)]
struct Easing {
    job: Option<u64>,
    part: Part,
    seconds: u64,
    packs: u64,
}

// How an order was changed: whether it is easier by the rule, and how many of its times and lengths are others.
#[derive(Clone, Copy)]
pub struct Change {
    pub easier: bool,
    pub eased: u64,
}

// The job that is eased, of so many: one, or as often all.
fn draw_place(seed: &mut Seed, jobs: u64) -> Option<u64> {
    let one = seed.draw(2) != 0;
    let job = seed.draw(jobs);
    one.then_some(job)
}

// The part that is eased.
fn draw_part(seed: &mut Seed) -> Part {
    match seed.draw(8) {
        0 | 1 => Part::Length,
        2 => Part::Ready,
        3 => Part::Deadline,
        4 => Part::Free,
        _ => Part::All,
    }
}

// Below how many seconds each is eased. One is nothing at all: the same order under other numbers and packs.
fn draw_seconds(seed: &mut Seed) -> u64 {
    match seed.draw(8) {
        0 => 1,
        1 => 3,
        2 | 3 => 16,
        4 | 5 | 6 => 100,
        _ => MOST,
    }
}

// How many packs are drawn from: a pack of 0 throughout makes records of the kind without one.
fn draw_packs(seed: &mut Seed) -> u64 {
    if seed.draw(2) == 0 { 1 } else { 256 }
}

// So many seconds less: taken from what the most would leave, since a count has no sign.
fn less(number: i32, by: u64) -> i32 {
    if by > MOST {
        return number;
    }
    plus(plus(number, -10_000), number_of(MOST - by))
}

// Another number for a job: two jobs of unlike numbers have unlike ones again.
fn other_number(number: i32) -> i32 {
    let count = count_of(number);
    if count > HIGHEST {
        return number;
    }
    number_of(HIGHEST - count)
}

impl Easing {
    // What is eased of an order of so many jobs.
    fn draw(seed: &mut Seed, jobs: u64) -> Easing {
        Easing {
            job: draw_place(seed, jobs),
            part: draw_part(seed),
            seconds: draw_seconds(seed),
            packs: draw_packs(seed),
        }
    }

    // By how many seconds a part is eased, where it is the one and its job too.
    fn draw_by(self, seed: &mut Seed, here: bool, part: Part) -> u64 {
        let by = seed.draw(self.seconds);
        if here && (self.part == part || self.part == Part::All) {
            return by;
        }
        0
    }

    // A job eased, by a seed for each of its numbers; its mark and its weight stay.
    fn ease(self, seed: &mut Seed, here: bool, old: Job) -> Job {
        seed.step();
        let pack = seed.draw_from(0, self.packs);
        seed.step();
        seed.step();
        let ready = less(old.ready, self.draw_by(seed, here, Part::Ready));
        let length = less(old.length, self.draw_by(seed, here, Part::Length));
        let later = number_of(self.draw_by(seed, here, Part::Deadline));
        Job {
            number: other_number(old.number),
            pack,
            ready: in_time(ready),
            length: length.max(1),
            deadline: in_time(plus(old.deadline, later)),
            ..old
        }
    }

    // The jobs of an order eased.
    fn ease_jobs(self, seed: &mut Seed, old: &[i32], new: &mut [i32]) {
        for (place, old) in jobs_of(old).iter().enumerate() {
            let here = self.job.is_none_or(|job| job == place as u64);
            put_job(new, place, self.ease(seed, here, Job::from(*old)));
        }
    }
}

// An order eased, its jobs put from the first place on. When the bus is free is eased alone, or with all parts of all
// jobs.
pub fn ease<'a>(seed: &mut Seed, old: Order<'_>, numbers: &'a mut [i32]) -> Order<'a> {
    let easing = Easing::draw(seed, jobs_of(old.numbers).len() as u64);
    easing.ease_jobs(seed, old.numbers, numbers);
    let here = easing.part == Part::Free || easing.job.is_none();
    let by = easing.draw_by(seed, here, Part::Free);
    Order {
        numbers: front(numbers, old.numbers.len()),
        t0: in_time(less(old.t0, by)),
    }
}

// Whether a job is no harder than it was: ready no later, no longer, due no earlier, of the same mark and weight.
// Its number and its pack have no part in it.
fn no_harder(old: Job, new: Job) -> bool {
    new.ready <= old.ready
        && new.length <= old.length
        && new.deadline >= old.deadline
        && new.critical == old.critical
        && new.weight == old.weight
}

// How many of a job's times and lengths are others.
fn others(old: Job, new: Job) -> u64 {
    let ready = (new.ready != old.ready) as u64;
    let length = (new.length != old.length) as u64;
    ready + length + (new.deadline != old.deadline) as u64
}

// The change from one order to another, job by job.
pub fn change_of(old: Order<'_>, new: Order<'_>) -> Change {
    let mut easier = old.numbers.len() == new.numbers.len() && new.t0 <= old.t0;
    let mut eased = (new.t0 != old.t0) as u64;
    for (old, new) in jobs_of(old.numbers).iter().zip(jobs_of(new.numbers)) {
        let old = Job::from(*old);
        let new = Job::from(*new);
        easier = easier && no_harder(old, new);
        eased = more(eased, others(old, new));
    }
    Change { easier, eased }
}
