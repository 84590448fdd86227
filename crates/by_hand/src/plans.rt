// Packed plans by trial: the bits of a plan are read one by one and held to the rules, each kept job to the
// latest of the rests before it; and the plan of starts is packed bit by bit.
ghost use Rattle.std.specs.Prelude.{◌≤◌};

use crate::choices::{LEFT_OUT, REST};
use careful::{Job, at, count_of, jobs_of, plus};
use refusals::Reason;

// The bits of a mask, the bits of a start and the numbers that they tell apart, and the bytes of the
// shortest and of the longest plan.
const MASK: usize = 48;

const START: usize = 18;

const START_NUMBERS: i32 = 262_144;

const SHORTEST: usize = 6;

const LONGEST: usize = 114;

// A second before all times.
const LONG_AGO: i32 = -200_000;

// The rules that a plan may break: a start before t0, before the job is ready, before the rest is over;
// a finish past its deadline; a critical job left out.
#[derive(Clone, Copy, PartialEq, Eq)]
pub enum Rule {
    BeforeFree,
    BeforeReady,
    BeforeRested,
    PastDeadline,
    CriticalOut,
}

// What a plan comes to: the first rule that it breaks, if any, whether a job waits that could have started,
// the weight kept, and when the rests of all its jobs are over.
#[derive(Clone, Copy)]
pub struct Judged {
    pub broken: Option<Rule>,
    pub idle: bool,
    pub weight: i32,
    pub over: i32,
}

// Whether the bit of a plan at a place is a one; none is past the end.
fn is_one(plan: &[u8], place: usize) -> bool {
    plan.get(place / 8)
        .is_some_and(|byte| (byte >> (7 - place % 8)) % 2 == 1)
}

// How many of the first so many bits are ones.
fn ones(plan: &[u8], many: usize) -> usize
    ensures { result ≤ many }
{
    (0..many).filter(|place| is_one(plan, *place)).count()
}

// The signed number in the bits from one place to another: the first is its sign, and stands before it
// for ever.
fn number_in(plan: &[u8], from: usize, to: usize) -> i32 {
    let mut number = if is_one(plan, from) { -1 } else { 0 };
    for place in from..to {
        number = plus(plus(number, number), is_one(plan, place) as i32);
    }
    number
}

// The start of the job at a place, if it is kept; it lies behind the starts of the jobs kept before it.
fn start_in(plan: &[u8], place: usize) -> Option<i32> {
    if place >= MASK || !is_one(plan, place) {
        return None;
    }
    let from = MASK + START * ones(plan, place);
    Some(number_in(plan, from, from + START))
}

// Whether the bits of a plan are one for so many jobs. They must end in its last byte; in the mask beyond the
// jobs and behind the last start there must be no ones.
fn check_bits(plan: &[u8], jobs: usize) -> Result<(), Reason> {
    if plan.len() < SHORTEST || plan.len() > LONGEST {
        return Err(Reason::PlanWrongLength);
    }
    let kept = ones(plan, MASK);
    let bits = MASK + START * kept;
    let room = 8 * plan.len();
    if room < bits || room >= bits + 8 {
        return Err(Reason::PlanWrongLength);
    }
    if kept != ones(plan, jobs) || ones(plan, bits) != ones(plan, room) {
        return Err(Reason::PlanStrayBits);
    }
    Ok(())
}

// The rule that a job breaks by its start, if any; the rests before it are over at a time.
fn broken_by(job: Job, t0: i32, over: i32, start: i32) -> Option<Rule> {
    if start < t0 {
        Some(Rule::BeforeFree)
    } else if start < job.ready {
        Some(Rule::BeforeReady)
    } else if start < over {
        Some(Rule::BeforeRested)
    } else if job.deadline < plus(start, job.length) {
        Some(Rule::PastDeadline)
    } else {
        None
    }
}

impl Judged {
    // With a job more that is left out.
    fn leave(self, job: Job) -> Judged {
        let broken = if job.critical {
            Some(Rule::CriticalOut)
        } else {
            None
        };
        Judged {
            broken: self.broken.or(broken),
            ..self
        }
    }

    // With a job more that is kept.
    fn keep(self, job: Job, t0: i32, start: i32) -> Judged {
        let over = self.over;
        let waits = t0 < start && job.ready < start && over < start;
        Judged {
            broken: self.broken.or(broken_by(job, t0, over, start)),
            idle: self.idle || waits,
            weight: plus(self.weight, job.weight),
            over: over.max(plus(plus(start, job.length), REST)),
        }
    }
}

// A plan judged for an order.
pub fn judge_plan(numbers: &[i32], t0: i32, plan: &[u8]) -> Result<Judged, Reason> {
    let jobs = jobs_of(numbers);
    check_bits(plan, jobs.len())?;
    let mut judged = Judged {
        broken: None,
        idle: false,
        weight: 0,
        over: LONG_AGO,
    };
    for (place, numbers) in jobs.iter().enumerate() {
        let job = Job::from(*numbers);
        judged = match start_in(plan, place) {
            Some(start) => judged.keep(job, t0, start),
            None => judged.leave(job),
        };
    }
    Ok(judged)
}

// Flips the bit at a place; past the end nothing is written.
pub fn flip_bit(plan: &mut [u8], place: usize) {
    if let Some(byte) = plan.get_mut(place / 8) {
        *byte ^= 128 >> (place % 8);
    }
}

// Puts a bit at a place.
fn put_bit(plan: &mut [u8], place: usize, one: bool) {
    if is_one(plan, place) != one {
        flip_bit(plan, place);
    }
}

// Puts a number in the bits from one place to another, from its lowest bit back.
fn put_number(plan: &mut [u8], from: usize, to: usize, number: i32) {
    let mut left = count_of(plus(number, START_NUMBERS));
    for place in (from..to).rev() {
        put_bit(plan, place, left % 2 == 1);
        left /= 2;
    }
}

// Puts the job at a place, with its start behind those of so many kept before it. Returns how many are
// kept with it.
fn put_job(plan: &mut [u8], place: usize, kept: usize, start: i32) -> usize
    ensures { result ≤ 48 }
{
    put_bit(plan, place, start != LEFT_OUT);
    if kept >= MASK {
        return MASK;
    }
    if start == LEFT_OUT {
        return kept;
    }
    let from = MASK + START * kept;
    put_number(plan, from, from + START, start);
    kept + 1
}

// The plan of 48 starts, in place order, with zeros to the end of its last byte. Returns how many bytes
// it has.
pub fn pack_plan(starts: &[i32], plan: &mut [u8]) -> usize {
    let mut kept = 0;
    for place in 0..MASK {
        kept = put_job(plan, place, kept, at(starts, place));
    }
    let bits = MASK + START * kept;
    let bytes = bits.div_ceil(8);
    put_number(plan, bits, 8 * bytes, 0);
    bytes
}
