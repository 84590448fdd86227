// The calls on profiles compared with the planner by trial: extending, the better of two, and looking up.
ghost use Rattle.std.specs.Prelude.{◌≤◌, IfOk};

use crate::counts::Run;
use careful::{front, is_count, more, plus};
use comparing::{MARK, answers, leaves, pack_order};
use refusals::Reason;
use trial_orders::Order;

// What extending must answer: how many points it writes, or why it is refused.
fn expect_extended(profile: &[i32], numbers: &[i32], out: &mut [i32]) -> Result<usize, Reason>
    ensures { IfOk result (λ points. points ≤ 301) }
{
    if !by_hand::is_profile(profile) {
        return Err(Reason::ProfileNotValid);
    }
    if by_hand::too_heavy(profile, numbers) {
        return Err(Reason::TooMuchWeight);
    }
    Ok(by_hand::extend(profile, numbers, out))
}

// Whether extending by an order's bytes answers what it must, and writes the points expected.
fn extend_agrees(
    profile: &[i32],
    bytes: &[u8],
    wanted: Result<usize, Reason>,
    expected: &[i32],
) -> bool {
    let mut out = [MARK; 604];
    let mut work = [MARK; 14_750];
    let answer = extending::extend(profile, bytes, &mut out, &mut work);
    let held = if wanted.is_err() { MARK } else { 0 };
    answers(answer, wanted) && out.as_slice() == expected && leaves(&work, held)
}

// A profile that must be written, of so many points: counted and looked up.
fn check_profile(run: &mut Run, expected: &[i32], points: usize)
    requires { points ≤ 301 }
{
    run.points = more(run.points, points as u64);
    check_lookups(run, front(expected, 2 * points));
}

// A profile extended by an order; the extended profile is looked up.
pub fn check_extend(run: &mut Run, profile: &[i32], order: Order<'_>) {
    let mut expected = [MARK; 604];
    let wanted = expect_extended(profile, order.numbers, &mut expected);
    let mut space = [0; 94];
    let bytes = pack_order(order.t0, order.numbers, &mut space);
    run.expect(extend_agrees(profile, bytes, wanted, &expected));
    check_profile(run, &expected, wanted.unwrap_or(0));
}

// What better-of must answer: how many points it writes, or why it is refused.
fn expect_joined(one: &[i32], other: &[i32], out: &mut [i32]) -> Result<usize, Reason>
    ensures { IfOk result (λ points. points ≤ 301) }
{
    if !by_hand::is_profile(one) || !by_hand::is_profile(other) {
        return Err(Reason::ProfileNotValid);
    }
    Ok(by_hand::join(one, other, out))
}

// Whether better-of answers what it must, and writes the points expected.
fn join_agrees(
    one: &[i32],
    other: &[i32],
    wanted: Result<usize, Reason>,
    expected: &[i32],
) -> bool {
    let mut out = [MARK; 604];
    better::better_of(one, other, &mut out) == wanted && out.as_slice() == expected
}

// The better of two profiles, which is looked up.
pub fn check_join(run: &mut Run, one: &[i32], other: &[i32]) {
    let mut expected = [MARK; 604];
    let wanted = expect_joined(one, other, &mut expected);
    run.expect(join_agrees(one, other, wanted, &expected));
    check_profile(run, &expected, wanted.unwrap_or(0));
}

// Whether an answer to a lookup is the weight expected, if any.
fn is_found(finding: Result<Option<u32>, Reason>, valid: bool, weight: Option<i32>) -> bool {
    match finding {
        Err(reason) => !valid && reason == Reason::ProfileNotValid,
        Ok(Some(found)) => valid && weight.is_some_and(|weight| is_count(found as u64, weight)),
        Ok(None) => valid && weight.is_none(),
    }
}

// A profile looked up at a time.
fn check_lookup(run: &mut Run, profile: &[i32], t: i32) {
    let valid = by_hand::is_profile(profile);
    let weight = by_hand::look_up(profile, t);
    run.expect(is_found(profiles::lookup(profile, t), valid, weight));
    run.lookups = more(run.lookups, 1);
}

// A profile looked up at the time of each point and the second before, and past the last.
pub fn check_lookups(run: &mut Run, profile: &[i32]) {
    check_lookup(run, profile, 150_000);
    for point in profile.as_chunks::<2>().0 {
        let time = point[0];
        check_lookup(run, profile, time);
        check_lookup(run, profile, plus(time, -1));
    }
}
