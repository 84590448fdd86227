// Orders and profiles for trials, drawn by a fixed generator: one seed gives the same orders on every
// machine. Every order is well formed; one profile in sixteen may be spoiled, an order of halves may be
// damaged so that it is none, and any order may be made easier. What draws moves its seed on.
// Assumes nothing.
#![tactic(auto)]

mod damages;
mod easing;
mod jobs;
mod kinds;
mod seeds;

use careful::{front, plus, put, put_job};
pub use damages::draw_damage;
pub use easing::{Change, change_of, ease};
use jobs::draw_job;
pub use kinds::{HALVES_KINDS, KINDS, Kind, halves_kind_of, kind_of};
pub use seeds::Seed;

// The first and the last second that a job may be ready at or due by.
const EARLIEST: i32 = -100_000;

const LATEST: i32 = 100_000;

// An order: the numbers of its jobs, seven each, and when the bus is free.
#[derive(Clone, Copy)]
pub struct Order<'a> {
    pub numbers: &'a [i32],
    pub t0: i32,
}

// A point of a profile.
#[derive(Clone, Copy)]
struct Point {
    time: i32,
    weight: i32,
}

// A time, or the nearest that an order may have.
fn in_time(time: i32) -> i32 {
    time.clamp(EARLIEST, LATEST)
}

// The time from which on the bus is free: not long after the kind's first.
fn draw_free(seed: &mut Seed, kind: Kind) -> i32 {
    in_time(seed.draw_from(kind.base, kind.lengths))
}

// A time at which to look: from the kind's first on, beyond the first deadlines.
pub fn draw_look(seed: &mut Seed, kind: Kind) -> i32 {
    let from = seed.draw_from(kind.base, kind.spread);
    seed.draw_from(from, kind.slack)
}

// An order of a kind, its jobs put from the first place on.
pub fn draw_order<'a>(seed: &mut Seed, kind: Kind, numbers: &'a mut [i32]) -> Order<'a> {
    let t0 = draw_free(seed, kind);
    let jobs = seed.draw_byte(kind.counts);
    let mut from = kind.base;
    for place in 0..jobs {
        let job = draw_job(seed, kind, from, numbers, place);
        put_job(numbers, place as usize, job);
        from = plus(from, kind.pace);
    }
    Order {
        numbers: front(numbers, 7 * jobs as usize),
        t0,
    }
}

// The first point of a profile: one in sixteen is too heavy to add much.
fn draw_point(seed: &mut Seed, kind: Kind) -> Point {
    let time = draw_free(seed, kind);
    let heavy = seed.draw(16) == 0;
    let weight = if heavy { 280 } else { seed.draw_from(0, 4) };
    Point { time, weight }
}

// The point behind one, so much later and heavier at least.
fn next_point(seed: &mut Seed, point: Point, kind: Kind, rise: i32) -> Point {
    Point {
        time: plus(point.time, seed.draw_from(rise, kind.lengths)),
        weight: plus(point.weight, seed.draw_from(rise, kind.weights)),
    }
}

// A profile of at most four points, as alternating numbers. Its times and weights rise at
// least by one, but for one profile in sixteen, where they may stand still.
pub fn draw_profile<'a>(seed: &mut Seed, kind: Kind, profile: &'a mut [i32]) -> &'a [i32] {
    let points = seed.draw_byte(5) as usize;
    let rise = (seed.draw(16) != 0) as i32;
    let mut point = draw_point(seed, kind);
    for k in 0..points {
        put(profile, 2 * k, point.time);
        put(profile, 2 * k + 1, point.weight);
        point = next_point(seed, point, kind, rise);
    }
    front(profile, 2 * points)
}
