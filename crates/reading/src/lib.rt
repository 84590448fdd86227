// What is read off a list of points in the lent work area: the last point by a time, and the list as the alternating numbers
// of a profile. Assumes nothing.
#![tactic(auto)]

ghost use Rattle.std.specs.Prelude.{◌≡◌, ◌+◌, ◌*◌, ◌<◌, length, set};
ghost use Rattle.profile.specs.Profile.{lookup};
ghost use Rattle.profiles.specs.Numbers.{alternating, written_over};
ghost use Rattle.codes.specs.Code.{points_at};
ghost use Rattle.reading.specs.Reading.{Stands, found, CanWrite};

use clock::lesser;
use codes::{Prefix, after, limit_by, time_in, weight_in};
use profiles::LATEST;

// The first second that a point may have.
const EARLIEST: i32 = -100_000;

// A point that was found: its weight and its time.
#[derive(Clone, Copy)]
pub struct Found {
    pub weight: usize,
    pub time: i32,
}

// The last point at or before a time. Every time is asked for one that a point may have.
pub fn last_by(work: &[i32], list: Prefix, by: i32) -> Option<Found>
    requires { Stands work.now list.place list.count }
    ensures { result ≡ found (lookup (points_at work.now list) by) }
{
    if by < EARLIEST {
        return None;
    }
    let place = list.place;
    let end = after(work, place, list.end(), limit_by(lesser(by, LATEST)));
    if end == place {
        return None;
    }
    let code = work[end - 1];
    Some(Found {
        weight: weight_in(code),
        time: time_in(code),
    })
}

// The two numbers of the point at a place.
fn put_point(out: &mut [i32], place: usize, time: i32, weight: i32)
    requires { 2 * place + 1 < length out.old }
    ensures { out.new ≡ set (set out.old (2 * place) time) (2 * place + 1) weight }
{
    out[2 * place] = time;
    out[2 * place + 1] = weight;
}

// A list written to the front of `out` as alternating numbers. By place: a point is two numbers there.
pub fn write_list(work: &[i32], list: Prefix, out: &mut [i32])
    requires { CanWrite work.now list.place list.count out.old }
    ensures { out.new ≡ written_over (alternating (points_at work.now list)) out.old }
{
    for k in 0..list.count {
        let code = work[list.place + k];
        put_point(out, k, time_in(code), weight_in(code) as i32);
    }
}
