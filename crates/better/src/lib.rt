// Better-of: two profiles, held as alternating numbers, joined to the shortest profile that gives at
// each time the greater of both weights. Any numbers and any room have an answer. Assumes nothing.
#![tactic(auto)]

ghost use Rattle.std.specs.Prelude.{◌≡◌};
ghost use Rattle.profiles.specs.Places.{AtPoint};
ghost use Rattle.better.specs.Answer.{joined_of, out_after};
ghost use Rattle.better.specs.Merging.{first_goes_at, Joinable, Merged};

use profiles::{MOST_NUMBERS, valid};
use refusals::Reason;

// The weight below all.
const BELOW_ALL: i32 = -1;

// Whether the next point is the first profile's: it has one left, and the second has none, a later one
// or one that is covered.
fn first_goes(p: &[i32], i: usize, q: &[i32], j: usize) -> bool
    requires { AtPoint p.now i × AtPoint q.now j }
    ensures { result ≡ first_goes_at p.now i q.now j }
{
    if i == p.len() {
        return false;
    }
    if j == q.len() {
        return true;
    }
    let time = p[i];
    let other = q[j];
    time < other || (time <= other && q[j + 1] <= p[i + 1])
}

// Takes the points of both profiles in turn, and writes those that are heavier than the last one
// written. Returns how many numbers it wrote.
fn merge(p: &[i32], q: &[i32], out: &mut [i32]) -> usize
    requires { Joinable p.now q.now out.old }
    ensures { Merged p.now q.now out.old result out.new }
{
    let mut i = 0;
    let mut j = 0;
    let mut n = 0;
    let mut last = BELOW_ALL;
    // By turns from either profile, so no `for` fits.
    while i < p.len() || j < q.len() {
        let time;
        let weight;
        if first_goes(p, i, q, j) {
            time = p[i];
            weight = p[i + 1];
            i += 2;
        } else {
            time = q[j];
            weight = q[j + 1];
            j += 2;
        }
        if last < weight {
            out[n] = time;
            out[n + 1] = weight;
            n += 2;
            last = weight;
        }
    }
    n
}

// The better of two profiles, written to the front of `out`; what is past it stays. How many points it has.
pub fn better_of(p: &[i32], q: &[i32], out: &mut [i32]) -> Result<usize, Reason>
    ensures answer { result ≡ joined_of p.now q.now out.old }
    ensures lent { out.new ≡ out_after p.now q.now out.old }
{
    if !valid(p) || !valid(q) {
        return Err(Reason::ProfileNotValid);
    }
    if out.len() < MOST_NUMBERS {
        return Err(Reason::BufferTooShort);
    }
    Ok(merge(p, q, out) / 2)
}
