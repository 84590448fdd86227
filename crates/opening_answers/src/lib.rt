// The answers on openings as structs with C's layout: the refusal, the winner, where its records stand, and their kind. Every
// answer has its struct. Assumes nothing.
#![tactic(auto)]

ghost use Rattle.std.specs.Prelude.{◌≡◌, Ok};
ghost use Rattle.choosing.specs.Choosing.{winner_of};
ghost use Rattle.opening_answers.specs.Numbers.{question_numbers, choose_numbers};

use openings::Won;
use packed::Refusal;
use ties::Winner;

// The bytes of a header.
const HEADER: usize = 4;

// The question: the winner, 1 or 2, and the kind of its records (both 0 if refused).
#[repr(C)]
#[derive(Clone, Copy)]
pub struct QuestionAnswer {
    pub refusal: u32,
    pub field: u32,
    pub winner: u32,
    pub kind: u32,
}

// The choice: the winner, which of its bytes are the records, from the offset on so many, and their kind.
#[repr(C)]
#[derive(Clone, Copy)]
pub struct ChooseAnswer {
    pub refusal: u32,
    pub field: u32,
    pub winner: u32,
    pub offset: usize,
    pub length: usize,
    pub kind: u32,
}

// The number of the opening that wins.
fn number_of(winner: Winner) -> u32
    ensures { result ≡ winner_of (Ok winner) }
{
    match winner {
        Winner::First => 1,
        Winner::Second => 2,
    }
}

// The answer of the question.
pub fn question_answer(answer: Result<Won, Refusal>) -> QuestionAnswer
    ensures { result ≡ question_numbers answer }
{
    match answer {
        Ok(won) => QuestionAnswer {
            refusal: 0,
            field: 0,
            winner: number_of(won.winner),
            kind: won.kind,
        },
        Err(refusal) => QuestionAnswer {
            refusal: refusal.number(),
            field: refusal.figure(),
            winner: 0,
            kind: 0,
        },
    }
}

// The answer of the choice between openings of so many bytes; a winner has a header.
pub fn choose_answer(answer: Result<Won, Refusal>, first: usize, second: usize) -> ChooseAnswer
    ensures { result ≡ choose_numbers answer first second }
{
    match answer {
        Ok(won) => {
            let bytes = match won.winner {
                Winner::First => first,
                Winner::Second => second,
            };
            ChooseAnswer {
                refusal: 0,
                field: 0,
                winner: number_of(won.winner),
                offset: HEADER,
                length: bytes.saturating_sub(HEADER),
                kind: won.kind,
            }
        }
        Err(refusal) => ChooseAnswer {
            refusal: refusal.number(),
            field: refusal.figure(),
            winner: 0,
            offset: 0,
            length: 0,
            kind: 0,
        },
    }
}
