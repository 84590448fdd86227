// One order more on a sheet: it is planned, and what planning says of it is joined. Any numbers, bytes and buffers have an answer.
// Assumes nothing.
#![tactic(auto)]

ghost use Rattle.std.specs.Prelude.{◌≡◌, ◌≤◌, length};
ghost use Rattle.area.specs.Area.{cleared};
ghost use Rattle.planner.specs.Calls.{Refused, Made};
ghost use Rattle.sheet.specs.Sheet.{figure_count, one_order, numbers_of, sheet_in, sheet_over};
ghost use Rattle.sheet.specs.Answered.{with_order};
ghost use Rattle.adding.specs.Calls.{takes_one, AddCall};
ghost use Rattle.adding.specs.Adding.{CanAdd, Added, Numbered, Light, Countable};

use area::{AREA, clear};
use packed::Refusal;
use planner::{Figures, plan};
use refusals::Reason;
use sheet::{FEASIBLE, FIGURES, JOBS, KEPT, MOST, OFFERED, TOP, is_sheet, join_into, none};

// The most jobs of an order.
const MOST_JOBS: usize = 48;

// The sheet of a refused order.
fn one_refused(refusal: Refusal) -> [u32; FIGURES]
    requires { Numbered refusal }
    ensures { result ≡ numbers_of (one_order (Refused refusal)) }
{
    let mut one = none();
    one[0] = 1;
    one[refusal.number() as usize] = 1;
    one
}

// The sheet of a planned one.
fn one_made(figures: Figures) -> [u32; FIGURES]
    requires { Light figures }
    ensures { result ≡ numbers_of (one_order (Made figures)) }
{
    let mut one = none();
    one[0] = 1;
    one[FEASIBLE] = 1;
    one[OFFERED] = figures.kept_weight + figures.lost_weight;
    one[KEPT] = figures.kept_weight;
    one[JOBS] = figures.kept;
    one[TOP] = figures.points + 1;
    one
}

// The sheet of one order, by what planning says of it.
fn one_order(planned: Result<Figures, Refusal>) -> [u32; FIGURES]
    requires { Countable planned }
    ensures { result ≡ numbers_of (one_order planned) }
{
    match planned {
        Ok(figures) => one_made(figures),
        Err(refusal) => one_refused(refusal),
    }
}

// One order more, by its bytes. Returns whether the work area is cleared: it is where there is a plan.
pub fn add_into(figures: &mut [u32], bytes: &[u8], work: &mut [i32]) -> bool
    requires { CanAdd figures.old work.old }
    ensures { Added figures.old bytes.now work.old result figures.new work.new }
{
    let mut starts = [0i32; MOST_JOBS];
    let one = one_order(plan(bytes, &mut starts, work));
    join_into(figures, &one);
    one[FEASIBLE] == 1
}

// The same, and the work area is cleared in any case.
fn add_cleared(figures: &mut [u32], bytes: &[u8], work: &mut [i32])
    requires { CanAdd figures.old work.old }
    ensures counts { figures.new ≡ sheet_over (with_order (sheet_in figures.old) bytes.now) figures.old }
    ensures clears { work.new ≡ cleared work.old }
{
    let clean = add_into(figures, bytes, work);
    if !clean {
        clear(work);
    }
}

// Whether the numbers are a sheet's that has room for one order more.
fn takes_one(figures: &[u32]) -> bool
    requires { figure_count ≤ length figures.now }
    ensures { result ≡ takes_one (sheet_in figures.now) }
{
    is_sheet(figures) && figures[0] < MOST
}

// The same for any numbers and room. Refused with too little room, and for no sheet or a full one.
pub fn add(figures: &mut [u32], bytes: &[u8], work: &mut [i32]) -> Result<(), Reason>
    ensures { AddCall figures.old bytes.now work.old result figures.new work.new }
{
    if figures.len() < FIGURES || work.len() < AREA {
        return Err(Reason::BufferTooShort);
    }
    if !takes_one(figures) {
        return Err(Reason::NoSheet);
    }
    add_cleared(figures, bytes, work);
    Ok(())
}
