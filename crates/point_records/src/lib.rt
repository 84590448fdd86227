// Lookup over a lent list of point records: the weight of the last point at or before a time. The records
// are laid out as alternating numbers, and looked up there. Any records and any time have an answer.
// Assumes nothing.
#![tactic(auto)]

ghost use Rattle.std.specs.Prelude.{◌≡◌, take};
ghost use Rattle.profiles.specs.Answer.{lookup_of};
ghost use Rattle.point_records.specs.Records.{flattened};

use refusals::Reason;

// A point of a profile. Its layout is C's, so that a list of them can be lent from outside.
#[repr(C)]
#[derive(Clone, Copy)]
pub struct Point {
    pub time: i32,
    pub weight: i32,
}

// The most records that are read: one more than a profile has points, so that too many are seen to be.
const MOST_READ: usize = 302;

// The weight of the last point at or before t, if there is one: as many records as are read, laid out as alternating numbers.
pub fn lookup_records(points: &[Point], t: i32) -> Result<Option<u32>, Reason>
    ensures { result ≡ lookup_of (flattened points.now) t }
{
    let count = points.len().min(MOST_READ);
    let mut numbers = [0; 2 * MOST_READ];
    for i in 0..count {
        numbers[2 * i] = points[i].time;
        numbers[2 * i + 1] = points[i].weight;
    }
    profiles::lookup(&numbers[..2 * count], t)
}

// The most records that are passed by value.
const MOST_PASSED: usize = 8;

// The lookup over the first so many of a few records that are passed by value, for callers that lend no
// slice of structs themselves.
pub fn lookup_among(
    points: [Point; MOST_PASSED],
    count: usize,
    t: i32,
) -> Result<Option<u32>, Reason>
    ensures { result ≡ lookup_of (flattened (take count points)) t }
{
    lookup_records(&points[..count.min(MOST_PASSED)], t)
}
