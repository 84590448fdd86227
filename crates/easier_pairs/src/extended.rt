// Two profiles, the second no worse, extended by two orders, the second easier: looked up at every time that tells
// them apart, the second extended one keeps no less.
use careful::{front, plus};
use comparing::{MARK, count};
use packed::Refusal;

// A time past the last of every profile.
const PAST_ALL: i32 = 150_000;

// The most points of a profile.
const POINTS: usize = 301;

// What was seen of two extended profiles: the lookups, and those that find more and less in the second.
#[derive(Clone, Copy, Default)]
pub struct Seen {
    pub lookups: u64,
    pub found_more: u64,
    pub found_less: u64,
}

// Why two profiles could not both be extended: the refusal of each, if it has one.
#[derive(Clone, Copy)]
pub struct Refused {
    pub before: Option<Refusal>,
    pub after: Option<Refusal>,
}

// How many numbers so many points have.
pub fn numbers_of(points: usize) -> usize {
    2 * points.min(POINTS)
}

// A profile extended by an order.
fn extend<'a>(profile: &[i32], order: &[u8], out: &'a mut [i32]) -> Result<&'a [i32], Refusal> {
    let mut work = [MARK; 14_750];
    let points = extending::extend(profile, order, out, &mut work)?;
    Ok(front(out, numbers_of(points)))
}

impl Seen {
    // Looks two profiles up at a time. Nothing found is less than any weight.
    fn look(&mut self, one: &[i32], other: &[i32], t: i32) {
        let before = profiles::lookup(one, t);
        let after = profiles::lookup(other, t);
        count(&mut self.lookups, true);
        match (before, after) {
            (Ok(before), Ok(after)) => {
                count(&mut self.found_more, before < after);
                count(&mut self.found_less, after < before);
            }
            _ => count(&mut self.found_less, true),
        }
    }

    // Looks two profiles up at the time of each point of a profile and the second before.
    fn look_at_points(&mut self, one: &[i32], other: &[i32], points: &[i32]) {
        for point in points.chunks_exact(2) {
            let time = point[0];
            self.look(one, other, time);
            self.look(one, other, plus(time, -1));
        }
    }

    // Looks two profiles up at the points of both, and past the last.
    fn look_through(&mut self, one: &[i32], other: &[i32]) {
        self.look(one, other, PAST_ALL);
        self.look_at_points(one, other, one);
        self.look_at_points(one, other, other);
    }
}

// A profile extended by an order and one that is no worse by an easier order, both looked up.
pub fn compare_extended(
    one: &[i32],
    other: &[i32],
    old: &[u8],
    new: &[u8],
) -> Result<Seen, Refused> {
    let mut before = [MARK; 602];
    let mut after = [MARK; 602];
    let first = extend(one, old, &mut before);
    let second = extend(other, new, &mut after);
    match (first, second) {
        (Ok(first), Ok(second)) => {
            let mut seen = Seen::default();
            seen.look_through(first, second);
            Ok(seen)
        }
        (first, second) => Err(Refused {
            before: first.err(),
            after: second.err(),
        }),
    }
}
