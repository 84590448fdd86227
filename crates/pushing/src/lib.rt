// The list of points pushed by a job at one rate, written to a lent buffer from the back. Assumes nothing.
#![tactic(auto)]

ghost use Rattle.std.specs.Prelude.{◌≡◌, ◌+ℤ◌};
ghost use Rattle.seconds.specs.Ranges.{InTime};
ghost use Rattle.pushing.specs.Pushes.{Coded, Delta, RateFits, delta_of, waited_as, CanPush, Pushed};

use codes::{Prefix, SECOND, code_of, limit_by, weight_in};
use profiles::REST;

// Where the pushed list ends: there stands a number past all.
const TOP: usize = 302;

// A rate at which a job may run: the seconds that it then takes, and the weight that it then counts.
#[derive(Clone, Copy)]
pub struct Rate {
    pub takes: usize,
    pub gain: usize,
}

// What a rate adds to a number: its seconds and the rest, less the weight that it counts.
pub fn delta_of(rate: Rate) -> i32
    requires { RateFits rate }
    ensures { result ≡ delta_of rate }
{
    ((rate.takes + REST as usize) * SECOND - rate.gain) as i32
}

// A number moved on: what a push and a wait share.
fn later(code: i32, delta: i32) -> i32
    requires { Coded code × Delta delta }
    ensures { result ≡ code +ℤ delta }
{
    code + delta
}

// The number of a point that waited until a time, moved on.
pub fn waits(ready: i32, delta: i32, code: i32) -> i32
    requires { InTime ready × Delta delta × Coded code }
    ensures { result ≡ waited_as ready delta code }
{
    later(code_of(ready, weight_in(code)), delta)
}

// A list pushed at a rate by a job that becomes ready at a time, written before the top of `pushed`: the points past the ready
// time are moved on, and of the others the last one waits.
pub fn push(work: &[i32], list: Prefix, ready: i32, rate: Rate, pushed: &mut [i32]) -> Prefix
    requires { CanPush work.now list ready rate pushed.old }
    ensures { Pushed work.now list ready rate result pushed.new }
{
    let limit = limit_by(ready);
    let delta = delta_of(rate);
    let mut p = TOP;
    for i in (list.place..list.end()).rev() {
        let code = work[i];
        p -= 1;
        if code <= limit {
            pushed[p] = waits(ready, delta, code);
            break;
        }
        pushed[p] = later(code, delta);
    }
    Prefix {
        place: p,
        count: TOP - p,
    }
}
