// The writer of an order's own plan: the plan that planning makes, as a packed plan. Any bytes and buffers have an answer.
// Assumes nothing.
#![tactic(auto)]

ghost use Rattle.std.specs.Prelude.{◌≡◌};
ghost use Rattle.packed.specs.Judge.{fine, judge};
ghost use Rattle.packed.specs.Refusals.{order_checks};
ghost use Rattle.plan_writer.specs.Calls.{WriteCall};
ghost use Rattle.plan_writer.specs.Asks.{NoStarts, CanWrite};

use judge::{MOST_JOBS, judge_order};
use packed::Refusal;
use plan_bytes::put_plan;
use planner::plan_order;
use refusals::Reason;
use starting::LEFT_OUT;

// The bytes of the longest plan.
pub const PLAN_ROOM: usize = 114;

// What one more of the lowest of a mask's 48 top bits counts for.
const LOWEST: u64 = 0x1_0000;

// A place for each start, all of them left out.
fn no_starts() -> [i32; MOST_JOBS]
    ensures { NoStarts result }
{
    [LEFT_OUT; MOST_JOBS]
}

// The plan of an order that has passed its checks, its starts over places that are left out, and its bytes where there is room.
fn write_over(
    order: &[u8],
    out: &mut [u8],
    starts: &mut [i32],
    work: &mut [i32],
) -> Result<usize, Refusal>
    requires { CanWrite order.now out.old starts.old }
    ensures { WriteCall order.now out.old work.old result out.new work.new }
{
    let figures = plan_order(order, starts, work)?;
    Ok(put_plan(out, figures.mask / LOWEST, starts))
}

// The same, with the room judged.
fn write_order(order: &[u8], out: &mut [u8], work: &mut [i32]) -> Result<usize, Refusal>
    requires { judge (order_checks order.now) ≡ fine }
    ensures { WriteCall order.now out.old work.old result out.new work.new }
{
    if out.len() < PLAN_ROOM {
        return Err(Reason::BufferTooShort.into());
    }
    let mut starts = no_starts();
    write_over(order, out, &mut starts, work)
}

// The plan of a packed order, written as a packed plan over the front of `out`. Tells how many bytes.
pub fn write_plan(order: &[u8], out: &mut [u8], work: &mut [i32]) -> Result<usize, Refusal>
    ensures { WriteCall order.now out.old work.old result out.new work.new }
{
    judge_order(order, 0)?;
    write_order(order, out, work)
}
