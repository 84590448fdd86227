// From the lists of all prefixes to the plan: the walk back from the last job to the first, which gives the mask of the jobs
// kept. Assumes nothing.
#![tactic(auto)]

ghost use Rattle.std.specs.Prelude.{◌≡◌, ◌-◌, ◌^◌, ◌<◌};
ghost use Rattle.std.proofs.Math.Option.{some};
ghost use Rattle.seconds.specs.Limits.{most_jobs};
ghost use Rattle.packed.specs.Packed.{t0_of, jobs_in};
ghost use Rattle.fields.specs.Fields.{as_job};
ghost use Rattle.codes.specs.Code.{points_at};
ghost use Rattle.reading.specs.Reading.{Stands};
ghost use Rattle.walking.specs.Trail.{leaves_out, Timely, last_start_of, StepsBack, step_back, Walks, walk_mask};

use clock::{lesser, rested};
use codes::Prefix;
use fields::Job;
use jobs::Records;
use reading::{Found, last_by};
use std::hint::select_unpredictable;

// Where the walk back stands: the mask of the jobs kept so far, the weight that the jobs before have to keep, and the time by
// which they have to leave the bus free.
#[derive(Clone, Copy)]
struct Trail {
    mask: u64,
    weight: usize,
    by: i32,
}

// The worth of the bit of a place.
fn bit_at(place: usize) -> u64
    requires { place < most_jobs }
    ensures { result ≡ 2 ^ (63 - place) }
{
    1 << (63 - place)
}

// Whether a job is left out: it is not critical, and the list before it gives exactly the weight by the time. No greater weight
// can be there: it would make a heavier plan.
fn leaves(work: &[i32], list: Prefix, critical: bool, weight: usize, by: i32) -> bool
    requires { Stands work.now list.place list.count }
    ensures { result ≡ leaves_out critical (points_at work.now list) weight by }
{
    !critical && last_by(work, list, by).is_some_and(|found| found.weight == weight)
}

// The last start of a job that leaves the bus free by a time: it ends by its deadline, and a rest before that time. What is
// rested after an end at 0 is the rest itself.
fn last_start(long: i32, deadline: i32, by: i32) -> i32
    requires { Timely long deadline by }
    ensures { result ≡ last_start_of long deadline by }
{
    let end = by - rested(0);
    lesser(deadline, end) - long
}

// One job back: it is left out where the list before it gives the weight in time, else it is kept. No branch tells which.
fn step_back(work: &[i32], list: Prefix, bit: u64, job: Job, trail: Trail) -> Trail
    requires { StepsBack work.now list bit job trail }
    ensures { some result ≡ step_back (as_job job) bit (points_at work.now list) trail }
{
    let Trail { mask, weight, by } = trail;
    let left = leaves(work, list, job.critical == 1, weight, by);
    let last = last_start(job.length, job.deadline, by);
    let gain = select_unpredictable(left, 0, job.weight as usize);
    let worth = select_unpredictable(left, 0, bit);
    Trail {
        mask: mask + worth,
        weight: weight - gain,
        by: select_unpredictable(left, by, last),
    }
}

// The mask of the choice that ends at a point, from the last job to the first.
pub fn walk(work: &[i32], records: Records, notes: &[Prefix], end: Found) -> u64
    requires { Walks work.now records.bytes.now records.count notes.now end }
    ensures { some result ≡ walk_mask (t0_of records.entry.bytes.now) (jobs_in records.entry.bytes.now) end.weight end.time }
{
    let mut trail = Trail {
        mask: 0,
        weight: end.weight,
        by: end.time,
    };
    for k in (0..records.count).rev() {
        let job = records.job_at(k);
        trail = step_back(work, notes[k], bit_at(k), job, trail);
    }
    trail.mask
}
