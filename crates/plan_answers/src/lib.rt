// The answers on profiles and plans as structs with C's layout: the refusal and the values of the rules for each
// case. Every answer has its struct. Assumes nothing.
#![tactic(auto)]

ghost use Rattle.std.specs.Prelude.{◌≡◌};
ghost use Rattle.plan_answers.specs.Numbers.{lookup_numbers, better_numbers, extend_numbers};
ghost use Rattle.plan_answers.specs.Numbers.{plan_figures, beside, halves_figures};

use halves::HalvesPlan;
use packed::Refusal;
use planner::Figures;
use refusals::Reason;

// A lookup: found (1 or 0), and the weight.
#[repr(C)]
#[derive(Clone, Copy)]
pub struct LookupAnswer {
    pub refusal: u32,
    pub found: u32,
    pub weight: u32,
}

// Better-of: the points written.
#[repr(C)]
#[derive(Clone, Copy)]
pub struct BetterAnswer {
    pub refusal: u32,
    pub points: usize,
}

// Extending: the points written.
#[repr(C)]
#[derive(Clone, Copy)]
pub struct ExtendAnswer {
    pub refusal: u32,
    pub place: usize,
    pub field: u32,
    pub points: usize,
}

// Planning: the figures of the plan.
#[repr(C)]
#[derive(Clone, Copy)]
pub struct PlanAnswer {
    pub refusal: u32,
    pub place: usize,
    pub field: u32,
    pub mask: u64,
    pub kept: u32,
    pub kept_weight: u32,
    pub lost_weight: u32,
    pub finish: i32,
    pub points: u32,
}

// Planning halves: the figures of the plan, and the optional seconds lost.
#[repr(C)]
#[derive(Clone, Copy)]
pub struct HalvesAnswer {
    pub refusal: u32,
    pub place: usize,
    pub field: u32,
    pub mask: u64,
    pub kept: u32,
    pub kept_weight: u32,
    pub lost_weight: u32,
    pub finish: i32,
    pub points: u32,
    pub seconds_lost: u32,
}

// The answer of a lookup.
pub fn lookup_answer(finding: Result<Option<u32>, Reason>) -> LookupAnswer
    ensures { result ≡ lookup_numbers finding }
{
    match finding {
        Err(reason) => LookupAnswer {
            refusal: reason.number(),
            found: 0,
            weight: 0,
        },
        Ok(Some(weight)) => LookupAnswer {
            refusal: 0,
            found: 1,
            weight,
        },
        Ok(None) => LookupAnswer {
            refusal: 0,
            found: 0,
            weight: 0,
        },
    }
}

// The answer of better-of.
pub fn better_answer(joined: Result<usize, Reason>) -> BetterAnswer
    ensures { result ≡ better_numbers joined }
{
    match joined {
        Err(reason) => BetterAnswer {
            refusal: reason.number(),
            points: 0,
        },
        Ok(points) => BetterAnswer { refusal: 0, points },
    }
}

// The answer of extending.
pub fn extend_answer(extended: Result<usize, Refusal>) -> ExtendAnswer
    ensures { result ≡ extend_numbers extended }
{
    match extended {
        Err(refusal) => ExtendAnswer {
            refusal: refusal.number(),
            place: refusal.place(),
            field: refusal.figure(),
            points: 0,
        },
        Ok(points) => ExtendAnswer {
            refusal: 0,
            place: 0,
            field: 0,
            points,
        },
    }
}

// The answer of planning.
pub fn plan_answer(planned: Result<Figures, Refusal>) -> PlanAnswer
    ensures { result ≡ plan_figures planned }
{
    match planned {
        Err(refusal) => PlanAnswer {
            refusal: refusal.number(),
            place: refusal.place(),
            field: refusal.figure(),
            mask: 0,
            kept: 0,
            kept_weight: 0,
            lost_weight: 0,
            finish: 0,
            points: 0,
        },
        Ok(figures) => PlanAnswer {
            refusal: 0,
            place: 0,
            field: 0,
            mask: figures.mask,
            kept: figures.kept,
            kept_weight: figures.kept_weight,
            lost_weight: figures.lost_weight,
            finish: figures.finish,
            points: figures.points,
        },
    }
}

// An answer of planning with the optional seconds lost behind its numbers.
fn with_seconds(plan: PlanAnswer, seconds: u32) -> HalvesAnswer
    ensures { result ≡ beside plan seconds }
{
    HalvesAnswer {
        refusal: plan.refusal,
        place: plan.place,
        field: plan.field,
        mask: plan.mask,
        kept: plan.kept,
        kept_weight: plan.kept_weight,
        lost_weight: plan.lost_weight,
        finish: plan.finish,
        points: plan.points,
        seconds_lost: seconds,
    }
}

// The answer of planning halves.
pub fn halves_answer(planned: Result<HalvesPlan, Refusal>) -> HalvesAnswer
    ensures { result ≡ halves_figures planned }
{
    match planned {
        Err(refusal) => with_seconds(plan_answer(Err(refusal)), 0),
        Ok(plan) => with_seconds(plan_answer(Ok(plan.figures)), plan.seconds),
    }
}
