// The calls over profiles held as alternating numbers (time, weight, time, weight, ..): whether they
// are a valid profile, and lookup at a time. Any numbers and any time have an answer.
// Assumes nothing.
#![tactic(auto)]

ghost use Rattle.std.specs.Prelude.{◌≡◌};
ghost use Rattle.profiles.specs.Numbers.{holds_profile};
ghost use Rattle.profiles.specs.Answer.{lookup_of};
ghost use Rattle.profiles.specs.ByTime.{count_by};

use refusals::Reason;

// The seconds that the bus rests after every job.
pub const REST: i32 = 15;

// The second before the first that a point may have, and the weight below all.
const BEFORE_ALL: i32 = -100001;

const BELOW_ALL: i32 = -1;

// The last second that a point may have, and the greatest weight.
pub const LATEST: i32 = 100000 + REST;

const MOST_WEIGHT: i32 = 300;

// The numbers of the longest profile, and the room that a call wants which writes one.
pub const MOST_NUMBERS: usize = 602;

// Whether the numbers hold a valid profile. Both rise, so the first and the last bound them all.
pub fn valid(numbers: &[i32]) -> bool
    ensures { result ≡ holds_profile numbers.now }
{
    let n = numbers.len();
    if n > MOST_NUMBERS || n % 2 != 0 {
        return false;
    }
    let mut time = BEFORE_ALL;
    let mut weight = BELOW_ALL;
    for point in 0..n / 2 {
        let t = numbers[2 * point];
        let w = numbers[2 * point + 1];
        if t <= time || w <= weight {
            return false;
        }
        time = t;
        weight = w;
    }
    time <= LATEST && weight <= MOST_WEIGHT
}

// How many numbers stand before the first point that is later than t.
fn count_by(numbers: &[i32], t: i32) -> usize
    ensures { result ≡ count_by t numbers.now }
{
    let points = numbers.len() / 2;
    for point in 0..points {
        if t < numbers[2 * point] {
            return 2 * point;
        }
    }
    2 * points
}

// The weight of the last point at or before t, if there is one.
pub fn lookup(numbers: &[i32], t: i32) -> Result<Option<u32>, Reason>
    ensures { result ≡ lookup_of numbers.now t }
{
    if !valid(numbers) {
        return Err(Reason::ProfileNotValid);
    }
    let end = count_by(numbers, t);
    if end == 0 {
        return Ok(None);
    }
    Ok(Some(numbers[end - 1] as u32))
}
