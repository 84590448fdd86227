// The calls on two openings at a time: which of them wins, with the kind of the winner's records, and these records. Of equal
// weights the opening wins that reaches it sooner, and by name always the first. Any bytes, time and work area have an answer.
// Assumes nothing.
#![tactic(auto)]

ghost use Rattle.std.specs.Prelude.{◌≡◌, Ok};
ghost use Rattle.ties.specs.Winning.{rule_of, sooner, to_first};
ghost use Rattle.choosing.specs.Choosing.{Handed, kind_won};
ghost use Rattle.choosing.specs.Comparing.{CanCompare};
ghost use Rattle.openings.specs.Answer.{Questioned};

use choosing::ask;
use fields::kind_in;
use packed::Refusal;
use ties::{Tie, Winner};

// What the question answers if it is not refused: which opening wins, and the kind of the winner's records, which says how many
// bytes each record has that the choice hands back.
#[derive(Clone, Copy, PartialEq, Eq)]
pub struct Won {
    pub winner: Winner,
    pub kind: u32,
}

// The kind of the winner's records. Only of openings that are accepted one wins, so they have headers.
fn kind_won(winner: Winner, first: &[u8], second: &[u8]) -> u32
    requires { CanCompare first.now second.now }
    ensures { result ≡ kind_won (Ok winner) first.now second.now }
{
    match winner {
        Winner::First => kind_in(first) as u32,
        Winner::Second => kind_in(second) as u32,
    }
}

// The question by a tie.
fn tell(tie: Tie, first: &[u8], second: &[u8], t: i32, work: &mut [i32]) -> Result<Won, Refusal>
    ensures { Questioned (rule_of tie) first.now second.now t work.old result work.new }
{
    let winner = ask(tie, first, second, t, work)?;
    let kind = kind_won(winner, first, second);
    Ok(Won { winner, kind })
}

// The choice by a tie: the records of the opening that wins, without its header, where they stand; the empty part
// at the start of the first where it is refused.
fn hand<'a>(tie: Tie, first: &'a [u8], second: &'a [u8], t: i32, work: &mut [i32]) -> &'a [u8]
    ensures { Handed (rule_of tie) first.entry second.entry t work.old result work.new }
{
    match ask(tie, first, second, t, work) {
        Ok(Winner::First) => &first[4..],
        Ok(Winner::Second) => &second[4..],
        Err(_) => &first[..0],
    }
}

// The question: of equal weights, the opening that reaches it sooner.
pub fn question(first: &[u8], second: &[u8], t: i32, work: &mut [i32]) -> Result<Won, Refusal>
    ensures { Questioned sooner first.now second.now t work.old result work.new }
{
    tell(Tie::Sooner, first, second, t, work)
}

// The question by the night desk's rule: of equal weights, the first opening. A call of its own for each tie: C and the pages name both.
pub fn question_first(first: &[u8], second: &[u8], t: i32, work: &mut [i32]) -> Result<Won, Refusal>
    ensures { Questioned to_first first.now second.now t work.old result work.new }
{
    tell(Tie::First, first, second, t, work)
}

// The choice: of equal weights, the opening that reaches it sooner.
pub fn choose<'a>(first: &'a [u8], second: &'a [u8], t: i32, work: &mut [i32]) -> &'a [u8]
    ensures { Handed sooner first.entry second.entry t work.old result work.new }
{
    hand(Tie::Sooner, first, second, t, work)
}

// The choice by the night desk's rule: of equal weights, the first opening.
pub fn choose_first<'a>(first: &'a [u8], second: &'a [u8], t: i32, work: &mut [i32]) -> &'a [u8]
    ensures { Handed to_first first.entry second.entry t work.old result work.new }
{
    hand(Tie::First, first, second, t, work)
}
