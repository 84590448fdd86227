// The answers of the calls on sheets as structs with C's layout. Assumes nothing.
#![tactic(auto)]

ghost use Rattle.std.specs.Prelude.{◌≡◌};
ghost use Rattle.sheet_answers.specs.Numbers.{numbered, sheet_numbers, text_numbers};

use refusals::Reason;

// One order more, joining, feeding: the refusal, 0 for none.
#[repr(C)]
#[derive(Clone, Copy)]
pub struct SheetAnswer {
    pub refusal: u32,
}

// The text: the refusal, and how many bytes were written.
#[repr(C)]
#[derive(Clone, Copy)]
pub struct SheetTextAnswer {
    pub refusal: u32,
    pub bytes: usize,
}

// The answer of a call that has a refusal alone.
pub fn sheet_answer(refusal: u32) -> SheetAnswer
    ensures { result ≡ numbered refusal }
{
    SheetAnswer { refusal }
}

// The answer of a call that has nothing else to say.
pub fn done_answer(done: Result<(), Reason>) -> SheetAnswer
    ensures { result ≡ sheet_numbers done }
{
    match done {
        Ok(()) => sheet_answer(0),
        Err(reason) => sheet_answer(reason.number()),
    }
}

// The answer of the text.
pub fn text_answer(told: Result<usize, Reason>) -> SheetTextAnswer
    ensures { result ≡ text_numbers told }
{
    match told {
        Ok(bytes) => SheetTextAnswer { refusal: 0, bytes },
        Err(reason) => SheetTextAnswer {
            refusal: reason.number(),
            bytes: 0,
        },
    }
}
