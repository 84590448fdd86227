// The answers of checking a plan as a struct with C's layout: the refusal and whether the plan is what was asked. Assumes nothing.
#![tactic(auto)]

ghost use Rattle.std.specs.Prelude.{◌≡◌};
ghost use Rattle.verdict_answers.specs.Numbers.{verdict_numbers};

use packed::Refusal;

// Checking: whether the plan is what was asked (1 or 0).
#[repr(C)]
#[derive(Clone, Copy)]
pub struct VerdictAnswer {
    pub refusal: u32,
    pub place: usize,
    pub field: u32,
    pub yes: u32,
}

// The answer of checking.
pub fn verdict_answer(checked: Result<bool, Refusal>) -> VerdictAnswer
    ensures { result ≡ verdict_numbers checked }
{
    match checked {
        Ok(holds) => VerdictAnswer {
            refusal: 0,
            place: 0,
            field: 0,
            yes: holds as u32,
        },
        Err(refusal) => VerdictAnswer {
            refusal: refusal.number(),
            place: refusal.place(),
            field: refusal.figure(),
            yes: 0,
        },
    }
}
