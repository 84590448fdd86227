// Profiles by trial: the outcomes of all choices gathered, and from them, or from the points of two
// profiles, the points at which the greatest weight to be had rises. An outcome or a point is a pair, of its
// time and its weight.
ghost use Rattle.std.specs.Prelude.{◌≤◌};

use crate::choices::{choices, run, tally_of};
use careful::{front, jobs_of, more, plus, put};

// The most outcomes of a profile's extension, of two profiles' points and of an order's choices: those of four
// points and ten jobs, of 301 points twice, and of ten jobs.
const EXTENDED: usize = 4096;

const JOINED: usize = 602;

const RUN: usize = 1024;

// The most points and numbers of a profile, the second before its earliest time, its latest time and its
// greatest weight.
const POINTS: usize = 301;

const NUMBERS: usize = 602;

const TOO_EARLY: i32 = -100_001;

const LATEST: i32 = 100_015;

const HEAVIEST: i32 = 300;

// What is reached by a time: the greatest weight of the outcomes or points at or before it, and the earliest
// time of those that have it.
#[derive(Clone, Copy)]
pub struct Reached {
    pub weight: i32,
    pub time: i32,
}

// The pairs gathered: the first so many of a room.
#[derive(Drop)]
struct Gathered<const ROOM: usize> {
    pairs: [[i32; 2]; ROOM],
    many: usize,
}

impl<const ROOM: usize> Gathered<ROOM> {
    // None as yet.
    fn new() -> Gathered<ROOM> {
        Gathered {
            pairs: [[0; 2]; ROOM],
            many: 0,
        }
    }

    // All that are gathered.
    fn all(&self) -> &[[i32; 2]] {
        front(&self.pairs, self.many)
    }

    // One more; in a full room nothing is written.
    fn put(&mut self, pair: [i32; 2]) {
        if self.many < ROOM {
            self.pairs[self.many] = pair;
            self.many += 1;
        }
    }

    // What every choice of jobs comes to, run from a point.
    fn put_run(&mut self, jobs: &[[i32; 7]], [time, weight]: [i32; 2]) {
        for choice in 0..choices(jobs.len()) {
            let outcome = run(jobs, time, choice);
            if outcome.feasible {
                self.put([outcome.free, plus(weight, outcome.weight)]);
            }
        }
    }

    // The same from every point of a profile. No jobs gather the points themselves.
    fn put_runs(&mut self, profile: &[i32], jobs: &[[i32; 7]]) {
        for point in points_of(profile) {
            self.put_run(jobs, *point);
        }
    }
}

// The numbers of a profile, point by point.
fn points_of(profile: &[i32]) -> &[[i32; 2]] {
    profile.as_chunks().0
}

// Whether a pair comes before another: earlier, or as early and heavier.
fn comes_first([time, weight]: [i32; 2], [other_time, other_weight]: [i32; 2]) -> bool {
    time < other_time || (time == other_time && weight > other_weight)
}

// The earliest pair above a weight, the heaviest of those.
fn next_rise(pairs: &[[i32; 2]], above: i32) -> Option<[i32; 2]> {
    let mut first: Option<[i32; 2]> = None;
    for pair in pairs {
        if pair[1] > above && first.is_none_or(|other| comes_first(*pair, other)) {
            first = Some(*pair);
        }
    }
    first
}

// The profile of pairs: a point at each time at which the greatest weight by then rises. Returns how many
// points there are.
fn write_profile(pairs: &[[i32; 2]], out: &mut [i32]) -> usize
    ensures { result ≤ 301 }
{
    let mut above = -1;
    for point in 0..POINTS {
        let Some(next) = next_rise(pairs, above) else {
            return point;
        };
        let [time, weight] = next;
        put(out, 2 * point, time);
        put(out, 2 * point + 1, weight);
        above = weight;
    }
    POINTS
}

// A profile extended by an order. Returns how many points there are.
pub fn extend(profile: &[i32], numbers: &[i32], out: &mut [i32]) -> usize
    ensures { result ≤ 301 }
{
    let mut gathered = Gathered::<EXTENDED>::new();
    gathered.put_runs(profile, jobs_of(numbers));
    write_profile(gathered.all(), out)
}

// The better of two profiles. Returns how many points there are.
pub fn join(one: &[i32], other: &[i32], out: &mut [i32]) -> usize
    ensures { result ≤ 301 }
{
    let mut gathered = Gathered::<JOINED>::new();
    gathered.put_runs(one, &[]);
    gathered.put_runs(other, &[]);
    write_profile(gathered.all(), out)
}

// How many points the profile of jobs has.
fn points_after(jobs: &[[i32; 7]], t0: i32) -> usize {
    let mut gathered = Gathered::<RUN>::new();
    gathered.put_run(jobs, [t0, 0]);
    write_profile(gathered.all(), &mut [])
}

// The points after each job, summed.
pub fn point_total(numbers: &[i32], t0: i32) -> u64 {
    let jobs = jobs_of(numbers);
    let mut total = 0;
    for k in 0..jobs.len() {
        total = more(total, points_after(&jobs[..=k], t0) as u64);
    }
    total
}

// What is reached with a pair too: a heavier one counts, and of the same weight an earlier one.
fn with_pair(so_far: Option<Reached>, [time, weight]: [i32; 2]) -> Reached {
    let new = Reached { weight, time };
    let Some(old) = so_far else { return new };
    let sooner = weight == old.weight && time < old.time;
    if weight > old.weight || sooner {
        new
    } else {
        old
    }
}

// What the pairs reach by a time, if anything.
fn reached_by(pairs: &[[i32; 2]], t: i32) -> Option<Reached> {
    let mut reached = None;
    for pair in pairs {
        if pair[0] <= t {
            reached = Some(with_pair(reached, *pair));
        }
    }
    reached
}

// The weight that a profile gives at a time, if it gives one.
pub fn look_up(profile: &[i32], t: i32) -> Option<i32> {
    reached_by(points_of(profile), t).map(|reached| reached.weight)
}

// What an order is worth at a time: what the outcomes of all its choices reach by then.
pub fn worth(numbers: &[i32], t0: i32, t: i32) -> Option<Reached> {
    let mut gathered = Gathered::<RUN>::new();
    gathered.put_run(jobs_of(numbers), [t0, 0]);
    reached_by(gathered.all(), t)
}

// Whether times and weights rise, all within their ranges.
fn rises(points: &[[i32; 2]]) -> bool {
    let mut last = [TOO_EARLY, -1];
    for point in points {
        if point[0] <= last[0] || point[1] <= last[1] {
            return false;
        }
        last = *point;
    }
    last[0] <= LATEST && last[1] <= HEAVIEST
}

// Whether numbers are a profile: pairs whose times and weights rise within their ranges.
pub fn is_profile(numbers: &[i32]) -> bool {
    numbers.len() <= NUMBERS && numbers.len() % 2 == 0 && rises(points_of(numbers))
}

// Whether a profile and an order are too heavy together. The choice that keeps nothing loses all weights.
pub fn too_heavy(profile: &[i32], numbers: &[i32]) -> bool {
    let last_weight = profile.last().copied().unwrap_or(0);
    HEAVIEST < plus(last_weight, tally_of(numbers, 0).lost)
}
