// Choosing between two openings at a time, by a tie: which of two packed orders keeps more weight by then, and of equal ones which
// reaches it sooner, or the first. Any bytes, time and work area have an answer. Assumes nothing.
#![tactic(auto)]

ghost use Rattle.std.specs.Prelude.{◌≡◌};
ghost use Rattle.ties.specs.Winning.{winner_by, rule_of};
ghost use Rattle.choosing.specs.Choosing.{Asked};
ghost use Rattle.choosing.specs.Comparing.{CanCompare, CanWeighBoth};

use area::{AREA, clear};
use judge::judge_order;
use packed::Refusal;
use refusals::Reason;
use ties::{Tie, Winner, decide};
use weighing::weigh;

// Which of two openings that have passed their checks wins: each is weighed in the same area. The tie, the openings, the time and the area
// go one by one, as the calls and their definitions name them.
fn weigh_both(
    tie: Tie,
    first: &[u8],
    second: &[u8],
    t: i32,
    work: &mut [i32],
) -> Result<Winner, Refusal>
    requires { CanWeighBoth first.now second.now work.old }
    ensures { result ≡ winner_by (rule_of tie) first.now second.now t }
{
    let one = weigh(first, t, work);
    let other = weigh(second, t, work);
    decide(tie, one, other)
}

// The same with the room judged, and the work area cleared behind.
fn compare(
    tie: Tie,
    first: &[u8],
    second: &[u8],
    t: i32,
    work: &mut [i32],
) -> Result<Winner, Refusal>
    requires { CanCompare first.now second.now }
    ensures { Asked (rule_of tie) first.now second.now t work.old result work.new }
{
    if work.len() < AREA {
        return Err(Reason::BufferTooShort.into());
    }
    let won = weigh_both(tie, first, second, t, &mut work[..AREA]);
    clear(work);
    won
}

// The question by a tie: which of two openings wins at a time, or the refusal.
pub fn ask(
    tie: Tie,
    first: &[u8],
    second: &[u8],
    t: i32,
    work: &mut [i32],
) -> Result<Winner, Refusal>
    ensures { Asked (rule_of tie) first.now second.now t work.old result work.new }
{
    judge_order(first, 0).map_err(Refusal::without_place)?;
    judge_order(second, 0).map_err(Refusal::without_place)?;
    compare(tie, first, second, t, work)
}
