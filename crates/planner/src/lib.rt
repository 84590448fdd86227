// The call that plans: the plan of a packed order. Any bytes and buffers have an answer. Assumes nothing.
#![tactic(auto)]

ghost use Rattle.std.specs.Prelude.{◌≡◌, Ok};
ghost use Rattle.packed.specs.Judge.{fine, judge};
ghost use Rattle.packed.specs.Refusals.{order_checks};
ghost use Rattle.planner.specs.Calls.{PlanCall};
ghost use Rattle.planner.specs.Planning.{CanPlan, CanPlanOver, CanMake, MadeIn};

use area::{AREA, clear};
use codes::Prefix;
use fields::{Header, header_at};
use filling::{Totals, fill_lists, notes, start_at};
use judge::{judge_order, records_in};
use packed::Refusal;
use profiles::LATEST;
use reading::{Found, last_by};
use refusals::Reason;
use starting::{kept_of, write_starts};
use walking::walk;

// A plan's numbers: the mask of the jobs kept, how many they are, the weight kept and the weight lost,
// when the bus is free after it, and the points of the profiles on the way.
#[derive(Clone, Copy)]
pub struct Figures {
    pub mask: u64,
    pub kept: u32,
    pub kept_weight: u32,
    pub lost_weight: u32,
    pub finish: i32,
    pub points: u32,
}

// The plan of a mask: its starts are written, and its figures told by its end and by the points and the weight of all jobs.
fn make_plan(
    bytes: &[u8],
    header: Header,
    mask: u64,
    totals: Totals,
    end: Found,
    starts: &mut [i32],
) -> Figures
    requires { CanMake bytes.now header mask totals end starts.old }
    ensures { MadeIn bytes.now starts.old (Ok result) starts.new }
{
    write_starts(records_in(bytes), header.t0, mask, starts);
    Figures {
        mask,
        kept: kept_of(mask),
        kept_weight: end.weight as u32,
        lost_weight: (totals.weight - end.weight) as u32,
        finish: end.time,
        points: totals.points as u32,
    }
}

// The plan by the lists of all jobs: it ends at the last point of the last list, and the walk back from there gives its mask.
// Where the last list has no point there is none (refusal 11).
fn plan_by_lists(
    bytes: &[u8],
    header: Header,
    starts: &mut [i32],
    work: &mut [i32],
    notes: &mut [Prefix],
) -> Result<Figures, Refusal>
    requires { CanPlanOver bytes.now header starts.old work.old notes.old }
    ensures { MadeIn bytes.now starts.old result starts.new }
{
    let records = records_in(bytes);
    start_at(work, header.t0);
    let totals = fill_lists(work, records, notes);
    match last_by(work, notes[header.count], LATEST) {
        None => Err(Reason::NoFeasibleChoice.into()),
        Some(end) => {
            let mask = walk(work, records, notes, end);
            Ok(make_plan(bytes, header, mask, totals, end, starts))
        }
    }
}

// The same with notes for the lists, the first of which has one point at the front.
fn plan_within(
    bytes: &[u8],
    header: Header,
    starts: &mut [i32],
    work: &mut [i32],
) -> Result<Figures, Refusal>
    requires { CanPlan bytes.now header starts.old work.old }
    ensures { MadeIn bytes.now starts.old result starts.new }
{
    let mut noted = notes(1);
    plan_by_lists(bytes, header, starts, work, &mut noted)
}

// Planning an order that has passed its checks: the room is judged, and the work area is cleared behind.
pub fn plan_order(bytes: &[u8], starts: &mut [i32], work: &mut [i32]) -> Result<Figures, Refusal>
    requires { judge (order_checks bytes.now) ≡ fine }
    ensures { PlanCall bytes.now starts.old work.old result starts.new work.new }
{
    let header = header_at(bytes);
    if starts.len() < header.count || work.len() < AREA {
        return Err(Reason::BufferTooShort.into());
    }
    let answer = plan_within(bytes, header, starts, &mut work[..AREA]);
    clear(work);
    answer
}

// The plan of a packed order; the starts are written in place order to the front of `starts`.
pub fn plan(bytes: &[u8], starts: &mut [i32], work: &mut [i32]) -> Result<Figures, Refusal>
    ensures { PlanCall bytes.now starts.old work.old result starts.new work.new }
{
    judge_order(bytes, 0)?;
    plan_order(bytes, starts, work)
}
