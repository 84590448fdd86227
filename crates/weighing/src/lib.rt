// Where an order stands at a time: the last point of its profile by then, from the lists of all its jobs.
// Assumes nothing.
#![tactic(auto)]

ghost use Rattle.std.specs.Prelude.{◌≡◌};
ghost use Rattle.profile.specs.Profile.{lookup, order_profile};
ghost use Rattle.packed.specs.Packed.{order_of};
ghost use Rattle.reading.specs.Reading.{point_in};
ghost use Rattle.weighing.specs.Weighing.{CanWeigh};

use fields::header_at;
use filling::{fill_last, start_at};
use judge::records_in;
use reading::{Found, last_by};

// The last point of an order's profile by a time.
pub fn weigh(bytes: &[u8], t: i32, work: &mut [i32]) -> Option<Found>
    requires { CanWeigh bytes.now work.old }
    ensures { point_in result ≡ lookup (order_profile (order_of bytes.now)) t }
{
    let header = header_at(bytes);
    start_at(work, header.t0);
    let last = fill_last(work, records_in(bytes), 1);
    last_by(work, last, t)
}
