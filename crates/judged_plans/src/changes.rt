// Plans drawn for an order: the starts of a choice moved, dropped or added, and their bytes flipped, cut
// off or added. Each draw takes the seed behind the last; what no change needs is drawn too, so that the plans
// of one change do not hang on those of another.
use crate::Trial;
use by_hand::{Best, LEFT_OUT, flip_bit, pack_plan, write_starts};
use careful::{Job, at, count_of, first_other, job_at, number_of, plus, put};
use trial_orders::Seed;

// What is changed of a plan: a start a second sooner or later, or put to an edge of its window; it and all behind it
// put off; a job left out or added; a bit of the mask flipped, two of its first, one of the starts, or one of the
// last; all bytes drawn, or those of the starts; a byte cut off or added; or nothing.
#[derive(Clone, Copy)]
pub enum Change {
    Sooner,
    Later,
    Edge,
    PutOff,
    LeaveOut,
    Add,
    FlipMask,
    FlipTwo,
    FlipStart,
    FlipLast,
    DrawAll,
    DrawStarts,
    Cut,
    Lengthen,
    Nothing,
}

// How our own plan of an order is changed, or that of a drawn choice where there is none.
pub const OF_OURS: [Change; 17] = [
    Change::Sooner,
    Change::Sooner,
    Change::Later,
    Change::Later,
    Change::Edge,
    Change::Edge,
    Change::PutOff,
    Change::LeaveOut,
    Change::Add,
    Change::FlipMask,
    Change::FlipTwo,
    Change::FlipStart,
    Change::FlipLast,
    Change::DrawAll,
    Change::DrawStarts,
    Change::Cut,
    Change::Lengthen,
];

// How that of a drawn choice is.
pub const OF_DRAWN: [Change; 3] = [Change::Nothing, Change::Edge, Change::PutOff];

// The bytes of the longest plan, and of a mask.
const LONGEST: usize = 114;

const MASK: usize = 6;

// The choice that a plan begins with: the best, if one is given.
fn draw_choice(seed: &mut Seed, best: Option<Best>) -> u32 {
    let choice = (seed.draw(1_024) % 1_024) as u32;
    best.map_or(choice, |best| best.choice)
}

// The place of a kept job drawn: the first from a drawn place on, or the first of all; past the end where
// none is kept.
fn draw_kept(seed: &mut Seed, jobs: u64, starts: &[i32]) -> usize {
    let place = first_other(starts, LEFT_OUT, seed.draw(jobs) as usize);
    place
        .or(first_other(starts, LEFT_OUT, 0))
        .unwrap_or(starts.len())
}

// A job's start moved by so many seconds; a job left out stays out.
fn move_start(starts: &mut [i32], place: usize, by: i32) {
    let start = at(starts, place);
    if start != LEFT_OUT {
        put(starts, place, plus(start, by));
    }
}

// All starts from a place on put off by so many seconds.
fn put_off(starts: &mut [i32], from: usize, by: i32) {
    for place in from..starts.len() {
        move_start(starts, place, by);
    }
}

// A job's last start by its deadline: so much later than that of the longest job as it is shorter.
fn last_start(job: Job) -> i32 {
    let length = count_of(job.length);
    let first = plus(job.deadline, -10_000);
    plus(first, number_of(10_000u64.saturating_sub(length)))
}

// A start at t0, at the job's ready time or at its last start, or a second before or after.
fn draw_edge(seed: &mut Seed, trial: Trial, place: usize) -> i32 {
    let job = job_at(trial.numbers, place);
    let edge = match seed.draw(3) {
        0 => trial.t0,
        1 => job.ready,
        _ => last_start(job),
    };
    plus(plus(edge, number_of(seed.draw(3))), -1)
}

// The starts of a plan changed.
fn change_starts(seed: &mut Seed, change: Change, trial: Trial, starts: &mut [i32]) {
    let kept = draw_kept(seed, (trial.numbers.len() / 7) as u64, starts);
    let added = seed.draw(12) as usize;
    let seconds = seed.draw(40);
    match change {
        Change::Sooner => move_start(starts, kept, -1),
        Change::Later => move_start(starts, kept, 1),
        Change::Edge => put(starts, kept, draw_edge(seed, trial, kept)),
        Change::PutOff => put_off(starts, kept, number_of(seconds)),
        Change::LeaveOut => put(starts, kept, LEFT_OUT),
        Change::Add => put(starts, added, job_at(trial.numbers, added).ready),
        _ => {}
    }
}

// One of the last six bits of a plan of so many bytes flipped: the padding lies there.
fn flip_last(seed: &mut Seed, plan: &mut [u8], size: usize) {
    let back = (seed.draw(6) % 6) as usize;
    let bits = 8 * size.min(LONGEST);
    flip_bit(plan, bits.saturating_sub(1 + back));
}

// The bits of a plan of so many bytes flipped. Two flipped bits may leave as many ones, at other places.
fn flip_bits(seed: &mut Seed, change: Change, plan: &mut [u8], size: usize) {
    match change {
        Change::FlipMask => flip_bit(plan, seed.draw_byte(48) as usize),
        Change::FlipTwo => {
            flip_bit(plan, seed.draw_byte(12) as usize);
            flip_bit(plan, seed.draw_byte(12) as usize);
        }
        Change::FlipStart => flip_bit(plan, 48 + seed.draw_byte(72) as usize),
        Change::FlipLast => flip_last(seed, plan, size),
        _ => {}
    }
}

// Drawn bytes put from a place on.
fn put_bytes(seed: &mut Seed, plan: &mut [u8], from: usize) {
    for byte in plan.iter_mut().skip(from) {
        *byte = seed.draw_byte(256);
    }
}

// The bytes of a plan of so many changed.
fn change_bytes(seed: &mut Seed, change: Change, plan: &mut [u8], size: usize) {
    flip_bits(seed, change, plan, size);
    match change {
        Change::DrawAll => put_bytes(seed, plan, 0),
        Change::DrawStarts => put_bytes(seed, plan, MASK),
        _ => {}
    }
}

// How many bytes a plan of so many is given.
fn change_size(seed: &mut Seed, change: Change, size: usize) -> usize {
    let drawn_size = seed.draw(40) as usize;
    match change {
        Change::DrawAll => drawn_size,
        Change::Cut => size.saturating_sub(1),
        Change::Lengthen => size.saturating_add(1),
        _ => size,
    }
}

// A plan for an order drawn: that of a choice, the best if one is given, changed. Returns how many bytes.
pub fn draw_plan(
    seed: &mut Seed,
    change: Change,
    trial: Trial,
    best: Option<Best>,
    plan: &mut [u8],
) -> usize {
    let mut starts = [LEFT_OUT; 48];
    let choice = draw_choice(seed, best);
    write_starts(trial.numbers, trial.t0, choice, &mut starts);
    change_starts(seed, change, trial, &mut starts);
    let size = pack_plan(&starts, plan);
    change_bytes(seed, change, plan, size);
    change_size(seed, change, size)
}
