// From the list of points before a job to the list after it by cells, for lists with many points past a job's ready time: a row with
// the cells of the list is stepped, and the work area gets its cells, whose last one by any time is the list's last point by it.
// Assumes nothing.
#![tactic(auto)]

ghost use Rattle.std.specs.Prelude.{◌≡◌, cond, ◌-◌, pos, length, ◌≤ℤ◌};
ghost use Rattle.codes.specs.Code.{lightness};
ghost use Rattle.cells.specs.Cells.{wide};
ghost use Rattle.sweeping.specs.Sweep.{left, Wiped, CanCount, Counted, CanGo, Started, CanSweep, Swept};
ghost use Rattle.sweeping.specs.Sweep.{Readable, many_late, CanSettle, Settled};

use cells::{WIDE, cells_to, lower, push_cells, wipe};
use codes::{Prefix, limit_by, time_in};
use gathering::gather;
use pushing::{Rate, delta_of};
use stepping::{Terms, last_start, startable_to};

// From so many points past a job's ready time on cells pay: a turn of the merge waits for the one before, a cell does not.
const MANY: usize = 20;

// A stretch of the work area that says a list: its numbers, and how many points the list has.
#[derive(Clone, Copy)]
pub struct Stretch {
    pub list: Prefix,
    pub points: usize,
}

// A critical job leaves no cells without it.
fn wipe_if(critical: bool, row: &mut [i32])
    requires { length row.old ≡ wide }
    ensures { Wiped critical row.old row.new }
{
    if critical {
        wipe(row, 0, WIDE);
    }
}

// How many cells are left without the job, of a list whose last number is this.
fn cells_left(critical: bool, last: i32) -> usize
    requires { pos 0 ≤ℤ last }
    ensures { result ≡ cond critical 0 (512 - lightness last) }
{
    if critical {
        return 0;
    }
    cells_to(last)
}

// What is left without the job: of a critical one nothing.
fn leave(from: Stretch, used: usize, critical: bool) -> Stretch
    ensures { result ≡ left critical used from.list from.points }
{
    if critical {
        let list = Prefix {
            place: used,
            count: 0,
        };
        return Stretch { list, points: 0 };
    }
    from
}

// How many cells a job can still start from at a rate.
fn startable_cells(work: &[i32], list: Prefix, job: Terms, rate: Rate) -> usize
    requires { CanCount job rate list work.now }
    ensures { Counted job rate list work.now result }
{
    if last_start(job, rate) < job.ready {
        return 0;
    }
    let end = startable_to(work, list, job, rate);
    if end == list.place {
        return 0;
    }
    cells_to(work[end - 1])
}

// The row stepped by a job that can start from so many cells: the lesser of the cells left without it and of those pushed by it.
fn sweep_started(
    work: &mut [i32],
    list: Prefix,
    many: usize,
    job: Terms,
    rate: Rate,
    pushed: &mut [i32],
    row: &mut [i32],
) -> Stretch
    requires { CanGo job rate list many work.old pushed.old row.old }
    ensures { Started job rate list many work.old row.old result work.new pushed.new row.new }
{
    let used = list.place + list.count;
    let ends = rate.gain + many;
    let far = cells_left(job.critical, work[used - 1]).max(ends);
    let limit = limit_by(job.ready);
    push_cells(row, many, limit, delta_of(rate), rate.gain, pushed);
    wipe(pushed, ends, far);
    wipe_if(job.critical, row);
    let rises = lower(row, pushed, far, work, used);
    let list = Prefix {
        place: used,
        count: far,
    };
    Stretch {
        list,
        points: rises as usize + 1,
    }
}

// The list after a job, from the list before it and its cells, which become the cells of the list after it.
pub fn sweep(
    work: &mut [i32],
    from: Stretch,
    job: Terms,
    rate: Rate,
    pushed: &mut [i32],
    row: &mut [i32],
) -> Stretch
    requires { CanSweep job rate from.list work.old pushed.old row.old }
    ensures { Swept job rate from.list from.points work.old row.old result work.new pushed.new row.new }
{
    let list = from.list;
    let many = startable_cells(work, list, job, rate);
    if many == 0 {
        wipe_if(job.critical, row);
        return leave(from, list.place + list.count, job.critical);
    }
    sweep_started(work, list, many, job, rate, pushed, row)
}

// Whether many points of a list are past a time.
pub fn many_late(work: &[i32], list: Prefix, time: i32) -> bool
    requires { Readable work.now list }
    ensures { result ≡ many_late work.now list time }
{
    if list.count < MANY {
        return false;
    }
    time < time_in(work[list.place + list.count - MANY])
}

// The list itself from its cells, at the front of the work area; an empty one where it is.
pub fn settle(work: &mut [i32], list: Prefix, row: &[i32]) -> Prefix
    requires { CanSettle list work.old row.now }
    ensures { Settled list work.old row.now result work.new }
{
    if list.count == 0 {
        return list;
    }
    let far = cells_to(work[list.place + list.count - 1]);
    let count = gather(row, far, work);
    Prefix { place: 0, count }
}
