// A pair of orders, the second easier, held against each other: their plans, their profiles, and profiles drawn
// and extended by them.
use crate::counts::Run;
use crate::extended::{Refused, Seen, compare_extended, numbers_of};
use crate::plans::plan_of;
use careful::{front, more};
use comparing::{MARK, count, pack_order, records_kind, says};
use packed::Refusal;
use refusals::Reason;
use trial_orders::{Change, Kind, Order, change_of, draw_profile};

// An order packed, and the time from which on the bus is free.
#[derive(Clone, Copy)]
struct Packed<'a> {
    bytes: &'a [u8],
    t0: i32,
}

// Numbers that are no profile: they are odd.
const NO_PROFILE: usize = 1;

// An order packed.
fn packed_in<'a>(order: Order, room: &'a mut [u8]) -> Packed<'a> {
    Packed {
        bytes: pack_order(order.t0, order.numbers, room),
        t0: order.t0,
    }
}

// Whether a drawn profile may be refused, if it is: it may not be valid, or too heavy.
fn may_be(refusal: Option<Refusal>) -> bool {
    refusal.is_none_or(|refusal| {
        says(refusal, Reason::ProfileNotValid, 0) || says(refusal, Reason::TooMuchWeight, 0)
    })
}

impl Run {
    // Counts the lookups of two extended profiles, none of which finds less.
    fn count_lookups(&mut self, seen: Seen) {
        self.lookups = more(self.lookups, seen.lookups);
        self.lookups_more = more(self.lookups_more, seen.found_more);
        self.worse = more(self.worse, seen.found_less);
    }

    // Counts the profiles of two orders, which have no refusal.
    fn count_profiles(&mut self, seen: Result<Seen, Refused>) {
        self.expect(seen.is_ok());
        if let Ok(seen) = seen {
            self.count_lookups(seen);
            count(&mut self.profiles_more, seen.found_more > 0);
            count(&mut self.profiles_same, seen.found_more == 0);
        }
    }

    // Counts a tail, passed over where one of its profiles is refused.
    fn count_tail(&mut self, seen: Result<Seen, Refused>) {
        match seen {
            Ok(seen) => {
                count(&mut self.tails, true);
                count(&mut self.tails_more, seen.found_more > 0);
                self.count_lookups(seen);
            }
            Err(refused) => {
                self.expect(may_be(refused.before) && may_be(refused.after));
                count(&mut self.passed_over, true);
            }
        }
    }

    // Counts a pair, the second of which must be easier.
    fn count_pair(&mut self, change: Change) {
        self.expect(change.easier);
        count(&mut self.pairs, true);
        count(&mut self.as_it_was, change.eased == 0);
        count(&mut self.one_eased, change.eased == 1);
    }
}

// How many numbers better-of wrote; where a profile is not valid, as many as no profile has.
fn joined_size(answer: Result<usize, Reason>) -> usize {
    match answer {
        Ok(points) => numbers_of(points),
        Err(Reason::ProfileNotValid) => NO_PROFILE,
        Err(_) => 0,
    }
}

// A tail of a kind drawn: a profile extended by an order, and the better of it and another by an easier one.
fn try_tail(run: &mut Run, kind: Kind, old: &[u8], new: &[u8]) {
    let mut first = [0; 8];
    let mut second = [0; 8];
    let mut out = [MARK; 602];
    let one = draw_profile(&mut run.seed, kind, &mut first);
    let other = draw_profile(&mut run.seed, kind, &mut second);
    let size = joined_size(better::better_of(one, other, &mut out));
    run.count_tail(compare_extended(one, front(&out, size), old, new));
}

// The plans of two packed orders, and their profiles from the time on at which the bus is free.
fn compare_packed(run: &mut Run, old: Packed, new: Packed) {
    let unlike = records_kind(old.bytes) != records_kind(new.bytes);
    run.compare_plans(plan_of(old.bytes), plan_of(new.bytes));
    count(&mut run.other_records, unlike);
    let seen = compare_extended(&[old.t0, 0], &[new.t0, 0], old.bytes, new.bytes);
    run.count_profiles(seen);
}

// Two orders, the second of which must be easier: their plans, their profiles, and a tail of a kind.
pub fn compare_orders(run: &mut Run, kind: Kind, old: Order, new: Order) {
    let mut one = [0; 94];
    let mut other = [0; 94];
    let first = packed_in(old, &mut one);
    let second = packed_in(new, &mut other);
    run.count_pair(change_of(old, new));
    compare_packed(run, first, second);
    try_tail(run, kind, first.bytes, second.bytes);
}
