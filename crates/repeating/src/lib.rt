// Repeating jobs, as numbers: whether each may repeat, the frame of their periods, and how many repeats the frame has and what
// they weigh, before any of them is made (R41 to R43). Assumes nothing.
#![tactic(auto)]

ghost use Rattle.std.specs.Prelude.{◌≡◌, true, ◌+◌, ◌*◌, ◌≤◌, pos, nat_abs, ◌≤ℤ◌, length, take, drop};
ghost use Rattle.multiples.specs.Multiples.{BothPositive, lcm as lcm_of};
ghost use Rattle.packed.specs.Places.{first, found_below};
ghost use Rattle.packed.specs.Judge.{judge};
ghost use Rattle.frames.specs.Frames.{may_repeat, unfit_at, frame_of, given_checks};
ghost use Rattle.frames.specs.Facts.{GivenFine};
ghost use Rattle.repeating.specs.Repeating.{numbers_in, in_range, in_period, Grown, CanWeigh, Weighs, CanCount, Counts};

use packed::Refusal;
use profiles::REST;
use refusals::Reason;

// A repeating job's six numbers. The deadline counts from the ready time of each repeat.
#[derive(Clone, Copy)]
pub struct Repeating {
    pub critical: i32,
    pub weight: i32,
    pub phase: i32,
    pub length: i32,
    pub deadline: i32,
    pub period: i32,
}

// How many repeats a frame has, and what they weigh together.
#[derive(Clone, Copy)]
pub struct Totals {
    pub count: u32,
    pub weight: u32,
}

// The most repeating jobs, and the longest frame.
pub const MOST_REPEATING: usize = 16;

pub const LONGEST_FRAME: u32 = 86400;

impl Repeating {
    // The repeating job whose six numbers stand at a place.
    pub fn read(numbers: &[i32], at: usize) -> Repeating
        requires { at + 6 ≤ length numbers.now }
        ensures { numbers_in result ≡ take 6 (drop at numbers.now) }
    {
        Repeating {
            critical: numbers[at],
            weight: numbers[at + 1],
            phase: numbers[at + 2],
            length: numbers[at + 3],
            deadline: numbers[at + 4],
            period: numbers[at + 5],
        }
    }

    // Whether each number is within its limits.
    fn in_range(self) -> bool
        ensures { result ≡ in_range self }
    {
        limits::between(0, 1, self.critical)
            & limits::weight_within(self.critical == 1, self.weight)
            & (0 <= self.phase)
            & limits::between(1, 10000, self.length)
            & limits::between(1, 86400, self.deadline)
            & limits::between(1, 86400, self.period)
    }

    // Whether the job leaves the bus free by the end of its period. The sum of phase and deadline could overflow, so the phase is
    // compared with what is left of the period.
    fn in_period(self) -> bool
        requires { in_range self ≡ true }
        ensures { result ≡ in_period self }
    {
        self.phase <= self.period - REST - self.deadline
    }

    // Whether the job may repeat.
    fn may_repeat(self) -> bool
        ensures { result ≡ may_repeat (numbers_in self) }
    {
        self.in_range() && self.in_period()
    }
}

// The first place whose job may not repeat, if there is one.
fn first_unfit(numbers: &[i32], count: usize) -> Option<usize>
    requires { 6 * count ≤ length numbers.now }
    ensures { result ≡ found_below count (first (unfit_at numbers.now) 0 count) }
{
    for place in 0..count {
        let job = Repeating::read(numbers, 6 * place);
        if !job.may_repeat() {
            return Some(place);
        }
    }
    None
}

// Checks 3, 4 and 16 on the jobs that are given.
pub fn judge_given(numbers: &[i32]) -> Result<(), Refusal>
    ensures { result ≡ judge (given_checks numbers.now) }
{
    if numbers.len() > 6 * MOST_REPEATING {
        return Err(Reason::TooManyJobs.into());
    }
    if numbers.len() % 6 != 0 {
        return Err(Reason::WrongLength.into());
    }
    match first_unfit(numbers, numbers.len() / 6) {
        Some(place) => Err(Refusal::at_place(Reason::RepeatingNotValid, place)),
        None => Ok(()),
    }
}

// A number that is not negative, as a count.
pub fn count_of(number: i32) -> u32
    requires { pos 0 ≤ℤ number }
    ensures { result ≡ nat_abs number }
{
    number as u32
}

// The frame of one period more. A frame that is too long already is given up, so that no product is greater than 64 bits hold.
fn grown(frame: u64, period: u32) -> u64
    requires { BothPositive frame period }
    ensures { Grown (lcm_of frame period) result }
{
    if frame > LONGEST_FRAME as u64 {
        return frame;
    }
    multiples::lcm(frame as u32, period)
}

// The frame of jobs that may repeat, or a number past the longest frame where theirs is past it.
pub fn frame_of(numbers: &[i32]) -> u64
    requires { GivenFine numbers.now }
    ensures { Grown (frame_of numbers.now) result }
{
    let mut frame = 1;
    for place in 0..numbers.len() / 6 {
        let job = Repeating::read(numbers, 6 * place);
        frame = grown(frame, count_of(job.period));
    }
    frame
}

// What the repeats of one job weigh.
fn weighed(times: u32, weight: u32) -> u32
    requires { CanWeigh times weight }
    ensures { Weighs times weight result }
{
    times * weight
}

// How many repeats a frame has, and what they weigh.
pub fn totals_of(numbers: &[i32], frame: u32) -> Totals
    requires { CanCount numbers.now frame }
    ensures { Counts numbers.now result }
{
    let mut count = 0;
    let mut weight = 0;
    for place in 0..numbers.len() / 6 {
        let job = Repeating::read(numbers, 6 * place);
        let times = frame / count_of(job.period);
        count += times;
        weight += weighed(times, count_of(job.weight));
    }
    Totals { count, weight }
}
