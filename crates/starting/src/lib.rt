// From a mask to the plan: the starts of the jobs that the mask keeps, and the number of them. Assumes nothing.
#![tactic(auto)]

ghost use Rattle.std.specs.Prelude.{◌≡◌, cond};
ghost use Rattle.order.specs.Choice.{number_kept};
ghost use Rattle.fields.specs.Fields.{as_job};
ghost use Rattle.starting.specs.Picks.{picks_of, TakesTurn, turn_of, WritesStarts, starts_written};

use clock::{greater, rested};
use fields::Job;
use jobs::Records;

// The worth of the highest bit of a mask, which is that of place 0.
const HIGHEST: u64 = 0x8000_0000_0000_0000;

// What stands for the start of a job that is left out: the C interface's starts are plain numbers.
pub const LEFT_OUT: i32 = 200_000;

// A job's start, and when the bus is free after it. No Option: a start goes as it is to the caller's numbers.
#[derive(Clone, Copy)]
struct Turn {
    start: i32,
    free: i32,
}

// A job's turn: left out it has no start and the bus stays free; kept it starts at the greater of its
// ready time and the bus-free time.
fn take_turn(job: Job, kept: bool, free: i32) -> Turn
    requires { TakesTurn job (cond kept 1 0) free }
    ensures { result ≡ turn_of (as_job job) (cond kept 1 0) free }
{
    if !kept {
        return Turn {
            start: LEFT_OUT,
            free,
        };
    }
    let start = greater(job.ready, free);
    Turn {
        start,
        free: rested(start + job.length),
    }
}

// The starts of the jobs that a mask keeps, in place order.
pub fn write_starts(records: Records, t0: i32, mask: u64, starts: &mut [i32])
    requires { WritesStarts records.bytes.now records.count t0 mask starts.old }
    ensures { starts.new ≡ starts_written records.entry.bytes.now records.entry.count t0 mask starts.old }
{
    let mut free = t0;
    let mut left = mask;
    for i in 0..records.count {
        let turn = take_turn(records.job_at(i), left >= HIGHEST, free);
        starts[i] = turn.start;
        free = turn.free;
        left = left % HIGHEST * 2;
    }
}

// The number of jobs that a mask keeps.
pub fn kept_of(mask: u64) -> u32
    ensures { result ≡ number_kept (picks_of 64 mask) }
{
    mask.count_ones()
}
