// From the list of points before a job to the list after it, in the lent work area: the three cases. Only what stands behind
// the part in use is written, so the lists before stay; a list always ends where the part in use ends. Assumes nothing.
#![tactic(auto)]

ghost use Rattle.std.specs.Prelude.{◌≡◌, pos, ◌≤ℤ◌};
ghost use Rattle.points.specs.Steps.{too_late};
ghost use Rattle.codes.specs.Code.{point_of};
ghost use Rattle.pushing.specs.Pushes.{job_rate};
ghost use Rattle.stepping.specs.Stepping.{CanEnd, last_start, job_of, left_out, CanAdd, Added, CanSeek, Startable};
ghost use Rattle.stepping.specs.Stepping.{CanPushBy, PushedBy, CanMerge, CanStep, Stepped};

use clock::greater;
use codes::{Prefix, after, limit_by, time_in};
use merging::{join, lay};
use pushing::{Rate, delta_of, push, waits};

// On what terms a job runs, at whichever rate: whether it must, from when on, and by when it must be done.
#[derive(Clone, Copy)]
pub struct Terms {
    pub critical: bool,
    pub ready: i32,
    pub deadline: i32,
}

// A pushed list in the buffer, and the place up to which the list goes before all of it.
#[derive(Clone, Copy)]
struct Moved {
    list: Prefix,
    cut: usize,
}

// The last start of a job at a rate.
pub fn last_start(job: Terms, rate: Rate) -> i32
    requires { CanEnd job rate }
    ensures { result ≡ last_start job rate }
{
    job.deadline - rate.takes as i32
}

// Whether a job can no longer start at a rate, from a list whose first number is this.
fn too_late(job: Terms, rate: Rate, first: i32) -> bool
    requires { CanEnd job rate × (pos 0 ≤ℤ first) }
    ensures { result ≡ too_late (job_of job rate) (job_rate rate) (point_of first) }
{
    last_start(job, rate) < greater(job.ready, time_in(first))
}

// Case 1, the job can no longer start: the list stays, but of a critical job none is left.
fn left_out(list: Prefix, used: usize, critical: bool) -> Prefix
    ensures { result ≡ left_out critical used list }
{
    if critical {
        return Prefix {
            place: used,
            count: 0,
        };
    }
    list
}

// Case 3, the job becomes ready after the last point: one point more behind the list, the only one if it is critical.
fn add_one(work: &mut [i32], list: Prefix, job: Terms, rate: Rate) -> Prefix
    requires { CanAdd job rate list work.old }
    ensures { Added job rate list work.old result work.new }
{
    let used = list.end();
    let last = work[used - 1];
    let delta = delta_of(rate);
    work[used] = waits(job.ready, delta, last);
    if job.critical {
        return Prefix {
            place: used,
            count: 1,
        };
    }
    Prefix {
        count: list.count + 1,
        ..list
    }
}

// The place after the points from which a job can still start at a rate.
pub fn startable_to(work: &[i32], list: Prefix, job: Terms, rate: Rate) -> usize
    requires { CanSeek job rate list work.now }
    ensures { Startable job rate list work.now result }
{
    after(
        work,
        list.place,
        list.end(),
        limit_by(last_start(job, rate)),
    )
}

// The list pushed by a job at one rate: its points up to the last start, pushed. The list is cut behind the point that the first of
// them comes from.
fn push_by(work: &[i32], list: Prefix, job: Terms, rate: Rate, pushed: &mut [i32]) -> Moved
    requires { CanPushBy job rate list work.now pushed.old }
    ensures { PushedBy job rate list work.now result pushed.new }
{
    let end = startable_to(work, list, job, rate);
    let front = Prefix {
        count: end - list.place,
        ..list
    };
    let list = push(work, front, job.ready, rate, pushed);
    Moved {
        list,
        cut: end + 1 - list.count,
    }
}

// Case 2: the list pushed by the job, and where the job is not critical merged with the list as it was.
fn merge_pushed(
    work: &mut [i32],
    list: Prefix,
    job: Terms,
    rate: Rate,
    pushed: &mut [i32],
) -> Prefix
    requires { CanMerge job rate list work.old pushed.old }
    ensures { Stepped job rate list work.old result work.new pushed.new }
{
    let used = list.end();
    let moved = push_by(work, list, job, rate, pushed);
    let other = moved.list;
    if job.critical {
        lay(work, used, pushed, other.place, other.count);
        return Prefix {
            place: used,
            ..other
        };
    }
    join(work, list, moved.cut, pushed, other)
}

// The list after a job, from the list before it. An empty list stays empty.
pub fn step(work: &mut [i32], list: Prefix, job: Terms, rate: Rate, pushed: &mut [i32]) -> Prefix
    requires { CanStep job rate list work.old pushed.old }
    ensures { Stepped job rate list work.old result work.new pushed.new }
{
    if list.count == 0 {
        return list;
    }
    let used = list.end();
    let first = work[list.place];
    let last = work[used - 1];
    if too_late(job, rate, first) {
        return left_out(list, used, job.critical);
    }
    if time_in(last) < job.ready {
        return add_one(work, list, job, rate);
    }
    merge_pushed(work, list, job, rate, pushed)
}
