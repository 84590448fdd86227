// Scheduling points in the lent work area, a point as one number: SECOND for each second since the earliest, and LIGHTEST less
// the weight. The smaller number is the earlier point and, at one time, the heavier. Assumes nothing.
#![tactic(auto)]

ghost use Rattle.std.specs.Prelude.{◌≡◌, ◌≤◌, ◌<◌, ◌^◌, pos, ◌≤ℤ◌};
ghost use Rattle.seconds.specs.Ranges.{InFree};
ghost use Rattle.seconds.specs.Limits.{most_weight};
ghost use Rattle.codes.specs.Code.{since, code_of, lightness, point_of, limit_of, end_of};
ghost use Rattle.codes.specs.Held.{Inside, After};

// The numbers for each second, and how light a point of no weight is.
pub const SECOND: usize = 512;

pub const LIGHTEST: usize = 511;

// The seconds from the earliest time to 0.
const BEFORE_ZERO: i32 = 100_000;

// The greatest number is past every point.
pub const PAST: i32 = 1_073_741_824;

// A list of points in the work area or in a buffer: where it begins, and how many they are.
#[derive(Clone, Copy)]
pub struct Prefix {
    pub place: usize,
    pub count: usize,
}

impl Prefix {
    // The place after its last point.
    pub fn end(self) -> usize
        requires { end_of self < 2 ^ 64 }
        ensures { result ≡ end_of self }
    {
        self.place + self.count
    }
}

// The seconds since the earliest time.
fn since(time: i32) -> usize
    requires { InFree time }
    ensures { result ≡ since time }
{
    (time + BEFORE_ZERO) as usize
}

// The number of a point.
pub fn code_of(time: i32, weight: usize) -> i32
    requires { InFree time × (weight ≤ most_weight) }
    ensures { result ≡ code_of time weight }
{
    (since(time) * SECOND + (LIGHTEST - weight)) as i32
}

// The greatest number of a point at a time: that of no weight.
pub fn limit_by(time: i32) -> i32
    requires { InFree time }
    ensures { result ≡ limit_of time }
{
    code_of(time, 0)
}

// How light a point is: LIGHTEST less its weight. A point stays a number with a fact beside it: it is read from lent numbers at every
// turn, where a type of its own would be made and taken apart again.
pub fn light_in(code: i32) -> usize
    requires { pos 0 ≤ℤ code }
    ensures { result ≡ lightness code }
{
    code as usize % SECOND
}

// The weight of a point.
pub fn weight_in(code: i32) -> usize
    requires { pos 0 ≤ℤ code }
    ensures { result ≡ (point_of code).weight }
{
    LIGHTEST - light_in(code)
}

// The time of a point.
pub fn time_in(code: i32) -> i32
    requires { pos 0 ≤ℤ code }
    ensures { result ≡ (point_of code).time }
{
    (code as usize / SECOND) as i32 - BEFORE_ZERO
}

// The place after the numbers up to a limit, searched from the back of a list.
pub fn after(work: &[i32], place: usize, end: usize, limit: i32) -> usize
    requires { Inside work.now place end }
    ensures { After work.now place end limit result }
{
    for i in (place..end).rev() {
        if work[i] <= limit {
            return i + 1;
        }
    }
    place
}
