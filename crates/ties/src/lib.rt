// Which of two openings wins, by the point that was found for each and a tie: the heavier, and of equal ones the one that reaches
// it sooner, or the first. Assumes nothing.
#![tactic(auto)]

ghost use Rattle.std.specs.Prelude.{◌≡◌, Some, Ok};
ghost use Rattle.reading.specs.Reading.{point_in};
ghost use Rattle.ties.specs.Winning.{by_points, rule_of};

use packed::Refusal;
use reading::Found;
use refusals::Reason;

// Which of two openings of the same weight wins: the one that reaches it sooner, and the first if both do at once; or always
// the first.
#[derive(Clone, Copy)]
pub enum Tie {
    Sooner,
    First,
}

impl Tie {
    // Whether the first wins, by the times at which both reach the same weight.
    fn to_first(self, one: i32, other: i32) -> bool
        ensures { result ≡ rule_of self one other }
    {
        match self {
            Tie::Sooner => one <= other,
            Tie::First => true,
        }
    }
}

// Which of the two openings wins.
#[derive(Clone, Copy, PartialEq, Eq)]
pub enum Winner {
    First,
    Second,
}

// Which of two points wins: the heavier, and of the same weight by the tie.
fn heavier(tie: Tie, one: Found, other: Found) -> Winner
    ensures { Ok result ≡ by_points (rule_of tie) (point_in (Some one)) (point_in (Some other)) }
{
    if other.weight < one.weight {
        return Winner::First;
    }
    if one.weight < other.weight {
        return Winner::Second;
    }
    if tie.to_first(one.time, other.time) {
        return Winner::First;
    }
    Winner::Second
}

// Which of two openings wins, by the point that was found for each; one without a point loses to one that has one. A refusal has
// no place, since it would not say of which opening.
pub fn decide(tie: Tie, first: Option<Found>, second: Option<Found>) -> Result<Winner, Refusal>
    ensures { result ≡ by_points (rule_of tie) (point_in first) (point_in second) }
{
    match (first, second) {
        (Some(one), Some(other)) => Ok(heavier(tie, one, other)),
        (Some(_), None) => Ok(Winner::First),
        (None, Some(_)) => Ok(Winner::Second),
        (None, None) => Err(Reason::NoFeasibleChoice.into()),
    }
}
