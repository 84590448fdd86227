// The call that extends a profile by a packed order. Any numbers, bytes and buffers have an answer. Assumes
// nothing.
#![tactic(auto)]

ghost use Rattle.std.specs.Prelude.{◌≡◌, ◌++◌};
ghost use Rattle.packed.specs.Judge.{fine, judge};
ghost use Rattle.packed.specs.Packed.{numbers_of};
ghost use Rattle.packed.specs.Refusals.{header_checks, job_checks};
ghost use Rattle.extending.specs.Calls.{extend_judged, ExtendCall};
ghost use Rattle.extending.specs.Extending.{CanExtend, ExtendedIn};

use area::{AREA, clear};
use filling::{fill_last, last_weight, start_profile};
use judge::{judge_jobs, judge_weight, records_in};
use packed::Refusal;
use profiles::{MOST_NUMBERS, valid};
use reading::write_list;
use refusals::Reason;

// The extended profile by the lists of all jobs, the last of them written to the front of `out`. Returns how many points.
fn extend_by_lists(profile: &[i32], bytes: &[u8], out: &mut [i32], work: &mut [i32]) -> usize
    requires { CanExtend profile.now bytes.now out.old work.old }
    ensures { ExtendedIn profile.now bytes.now out.old result out.new }
{
    let count = start_profile(work, profile);
    let last = fill_last(work, records_in(bytes), count);
    write_list(work, last, out);
    last.count
}

// Extending by an order that has passed the checks before the room: the room is judged, and the work area
// is cleared behind.
fn extend_with_room(
    profile: &[i32],
    bytes: &[u8],
    out: &mut [i32],
    work: &mut [i32],
) -> Result<usize, Refusal>
    requires { judge (extend_judged profile.now bytes.now) ≡ fine }
    ensures { ExtendCall profile.now bytes.now out.old work.old result
        out.new work.new }
{
    if out.len() < MOST_NUMBERS || work.len() < AREA {
        return Err(Reason::BufferTooShort.into());
    }
    let points = extend_by_lists(profile, bytes, out, &mut work[..AREA]);
    clear(work);
    Ok(points)
}

// Extending by bytes that have passed 1 to 7: the profile is judged, and its last weight with the order's.
fn extend_profile(
    profile: &[i32],
    bytes: &[u8],
    out: &mut [i32],
    work: &mut [i32],
) -> Result<usize, Refusal>
    requires { judge (header_checks bytes.now ++ job_checks (numbers_of bytes.now)) ≡ fine }
    ensures { ExtendCall profile.now bytes.now out.old work.old result
        out.new work.new }
{
    if !valid(profile) {
        return Err(Reason::ProfileNotValid.into());
    }
    let before = last_weight(profile);
    judge_weight(bytes, before as u32)?;
    extend_with_room(profile, bytes, out, work)
}

// A profile extended by a packed order, written to the front of `out`; what is past it stays. Tells how many points.
pub fn extend(
    profile: &[i32],
    bytes: &[u8],
    out: &mut [i32],
    work: &mut [i32],
) -> Result<usize, Refusal>
    ensures { ExtendCall profile.now bytes.now out.old work.old result
        out.new work.new }
{
    judge_jobs(bytes)?;
    extend_profile(profile, bytes, out, work)
}
