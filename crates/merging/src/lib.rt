// Two lists of points in the lent work area, merged behind the part in use: taken in turn, each kept where it is heavier
// than all before. Only what stands behind the part in use is written, so the lists before it stay. Assumes nothing.
#![tactic(auto)]

ghost use Rattle.std.specs.Prelude.{◌≡◌};
ghost use Rattle.merging.specs.Turns.{CanMerge, Merged};
ghost use Rattle.merging.specs.Joins.{CanCopyFour, CanCopy, Copied, CanLay, Laid, CanWeigh, light_before, CanJoin, Joined};

use codes::{LIGHTEST, PAST, Prefix, light_in};
use std::hint::select_unpredictable;

// Lighter than every point.
const LIGHTER_THAN_ALL: usize = LIGHTEST + 1;

// The points of two lists, past each of them a number past all, in turn; each is kept where it is heavier than all before: the
// first of them where it is less light than `lightest`. Returns the place after the last one kept. A number that is not kept is
// overwritten by the next. The number behind each of the two at hand is read before it is known which goes first, so that no turn
// waits for a place to be known.
fn merge(
    work: &mut [i32],
    list: Prefix,
    pushed: &[i32],
    other: Prefix,
    at: usize,
    lightest: usize,
) -> usize
    requires { CanMerge work.old list pushed.now other at lightest }
    ensures { Merged work.old list pushed.now other at lightest result work.new }
{
    let mut i = list.place;
    let mut j = other.place;
    let mut a = work[i];
    let mut b = pushed[j];
    let mut n = at;
    let mut best = lightest;
    // The cursors move by a test of what is read, so no iterator over a list fits.
    for _ in 0..list.count + other.count {
        let c = work[i + 1];
        let d = pushed[j + 1];
        let first = a <= b;
        let x = select_unpredictable(first, a, b);
        a = select_unpredictable(first, c, a);
        b = select_unpredictable(first, b, d);
        i += usize::from(first);
        j += usize::from(!first);
        work[n] = x;
        let light = light_in(x);
        n += usize::from(light < best);
        best = light.min(best);
    }
    n
}

// Four numbers copied: all are read before one is written.
fn copy_four(work: &mut [i32], from: usize, at: usize)
    requires { CanCopyFour from at work.old }
    ensures { Copied from at 4 work.old work.new }
{
    let a = work[from];
    let b = work[from + 1];
    let c = work[from + 2];
    let d = work[from + 3];
    work[at] = a;
    work[at + 1] = b;
    work[at + 2] = c;
    work[at + 3] = d;
}

// A part copied behind itself, in whole sixteens: what is copied past its end is of no account. Not `copy_within`: the sixteens
// were measured (docs/DECISIONS.md, "Lists are merged without waiting for a place").
fn copy(work: &mut [i32], from: usize, at: usize, count: usize)
    requires { CanCopy from at count work.old }
    ensures { Copied from at count work.old work.new }
{
    for k in (0..count).step_by(16) {
        let f = from + k;
        let t = at + k;
        copy_four(work, f, t);
        copy_four(work, f + 4, t + 4);
        copy_four(work, f + 8, t + 8);
        copy_four(work, f + 12, t + 12);
    }
}

// Numbers laid at a place.
pub fn lay(work: &mut [i32], at: usize, pushed: &[i32], from: usize, count: usize)
    requires { CanLay at pushed.now from count work.old }
    ensures { Laid at pushed.now from count work.old work.new }
{
    work[at..at + count].copy_from_slice(&pushed[from..from + count]);
}

// How light the number before a place is; lighter than all where the list begins there.
fn light_before(work: &[i32], place: usize, z: usize) -> usize
    requires { CanWeigh work.now place z }
    ensures { result ≡ light_before work.now place z }
{
    if place < z {
        return light_in(work[z - 1]);
    }
    LIGHTER_THAN_ALL
}

// A list and a pushed list, the better of both, behind the part in use and a number past all. Most of a list stands before all
// pushed points: its front, up to the place z, is copied, and only the rest is merged.
pub fn join(work: &mut [i32], list: Prefix, z: usize, pushed: &[i32], other: Prefix) -> Prefix
    requires { CanJoin work.old list z pushed.now other }
    ensures { Joined work.old list pushed.now other result work.new }
{
    let place = list.place;
    let used = list.end();
    work[used] = PAST;
    let front = z - place;
    copy(work, place, used + 1, front);
    let lightest = light_before(work, place, z);
    let back = Prefix {
        place: z,
        count: used - z,
    };
    let end = merge(work, back, pushed, other, used + 1 + front, lightest);
    Prefix {
        place: used + 1,
        count: end - (used + 1),
    }
}
