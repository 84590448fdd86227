// The question and the choice between two openings, by either tie rule, compared with the planner by trial:
// the answer, and that nothing is left in the work area.
use crate::counts::Run;
use by_hand::Reached;
use careful::more;
use comparing::{MARK, leaves, pack_order, records_kind, says};
use openings::Won;
use packed::Refusal;
use refusals::Reason;
use ties::{Tie, Winner};
use trial_orders::Order;

// An opening: its bytes, and what it reaches by the time that is asked.
#[derive(Clone, Copy)]
struct Opening<'a> {
    bytes: &'a [u8],
    reached: Option<Reached>,
}

// Which of two openings must win by what each reaches by the time: the heavier, and of the same weight the one that
// reaches it sooner, of both at once the first; or always the first.
fn heavier(tie: Tie, one: Reached, other: Reached) -> Winner {
    let sooner = match tie {
        Tie::Sooner => other.time < one.time,
        Tie::First => false,
    };
    if one.weight < other.weight || (one.weight == other.weight && sooner) {
        return Winner::Second;
    }
    Winner::First
}

// Which opening must win, if either reaches anything.
fn must_win(tie: Tie, first: Opening<'_>, second: Opening<'_>) -> Option<Winner> {
    match (first.reached, second.reached) {
        (Some(one), Some(other)) => Some(heavier(tie, one, other)),
        (Some(_), None) => Some(Winner::First),
        (None, Some(_)) => Some(Winner::Second),
        (None, None) => None,
    }
}

// The question by a tie. It is matched where it is asked, and no closure is handed down: one would bring a `requires`
// to every function on the way.
fn ask(tie: Tie, first: &[u8], second: &[u8], t: i32, work: &mut [i32]) -> Result<Won, Refusal> {
    match tie {
        Tie::Sooner => openings::question(first, second, t, work),
        Tie::First => openings::question_first(first, second, t, work),
    }
}

// The choice by a tie.
fn hand<'a>(tie: Tie, first: &'a [u8], second: &'a [u8], t: i32, work: &mut [i32]) -> &'a [u8] {
    match tie {
        Tie::Sooner => openings::choose(first, second, t, work),
        Tie::First => openings::choose_first(first, second, t, work),
    }
}

// The opening that wins.
fn bytes_of<'a>(winner: Winner, first: &'a [u8], second: &'a [u8]) -> &'a [u8] {
    match winner {
        Winner::First => first,
        Winner::Second => second,
    }
}

// Whether an answer names the opening that must win, and the kind of its records.
fn is_answer(
    answer: Result<Won, Refusal>,
    first: &[u8],
    second: &[u8],
    wanted: Option<Winner>,
) -> bool {
    match (answer, wanted) {
        (Ok(Won { winner, kind }), Some(wanted)) => {
            winner == wanted && records_kind(bytes_of(wanted, first, second)) == Some(kind)
        }
        (Err(refusal), None) => says(refusal, Reason::NoFeasibleChoice, 0),
        _ => false,
    }
}

// Whether the question on two openings agrees.
fn question_agrees(tie: Tie, first: &[u8], second: &[u8], t: i32, won: Option<Winner>) -> bool {
    let mut work = [MARK; 14_750];
    let answer = ask(tie, first, second, t, &mut work);
    is_answer(answer, first, second, won) && leaves(&work, 0)
}

// The records of a packed order.
fn records(bytes: &[u8]) -> &[u8] {
    &bytes[bytes.len().min(4)..]
}

// Whether the choice between two openings agrees: the records of the one that must win, or no byte where
// neither may.
fn choice_agrees(tie: Tie, first: &[u8], second: &[u8], t: i32, won: Option<Winner>) -> bool {
    let mut work = [MARK; 14_750];
    let part = hand(tie, first, second, t, &mut work);
    let expected = match won {
        None => &[],
        Some(winner) => records(bytes_of(winner, first, second)),
    };
    part == expected && leaves(&work, 0)
}

// The question and the choice between two openings by a tie. Returns which must win.
fn check_tie(
    run: &mut Run,
    tie: Tie,
    first: Opening<'_>,
    second: Opening<'_>,
    t: i32,
) -> Option<Winner> {
    let won = must_win(tie, first, second);
    run.expect(question_agrees(tie, first.bytes, second.bytes, t, won));
    run.expect(choice_agrees(tie, first.bytes, second.bytes, t, won));
    won
}

// Both ties on two openings; they differ where the second is sooner.
fn check_openings(run: &mut Run, first: Opening<'_>, second: Opening<'_>, t: i32) {
    let sooner = check_tie(run, Tie::Sooner, first, second, t);
    let to_first = check_tie(run, Tie::First, first, second, t);
    run.questions = more(run.questions, 1);
    run.second_sooner = more(run.second_sooner, (sooner != to_first) as u64);
}

// The choice between two orders at a time, both ways round.
pub fn check_choice(run: &mut Run, one: Order<'_>, other: Order<'_>, t: i32) {
    let mut space = [0; 94];
    let first = Opening {
        bytes: pack_order(one.t0, one.numbers, &mut space),
        reached: by_hand::worth(one.numbers, one.t0, t),
    };
    let mut other_space = [0; 94];
    let second = Opening {
        bytes: pack_order(other.t0, other.numbers, &mut other_space),
        reached: by_hand::worth(other.numbers, other.t0, t),
    };
    check_openings(run, first, second, t);
    check_openings(run, second, first, t);
}
