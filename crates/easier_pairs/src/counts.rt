// A run so far: the seed, what was met, what was eased to what effect, and how often an easier order came out
// worse.
use comparing::{count, write_count};
use trial_orders::Seed;

// How a run stands: pairs of orders, how much is eased, and whether the kind of records is another; plans
// feasible, and what they keep; profiles and tails, and what they keep; lookups; what an easier order does not
// promise, where both are feasible; and what must not be.
#[derive(Clone, Copy, Default)]
pub struct Run {
    pub seed: Seed,
    pub pairs: u64,
    pub as_it_was: u64,
    pub one_eased: u64,
    pub other_records: u64,
    pub feasible: u64,
    pub feasible_after: u64,
    pub plans_more: u64,
    pub plans_same: u64,
    pub profiles_more: u64,
    pub profiles_same: u64,
    pub lookups: u64,
    pub lookups_more: u64,
    pub tails: u64,
    pub tails_more: u64,
    pub passed_over: u64,
    pub later: u64,
    pub left_out: u64,
    pub points_rose: u64,
    pub points_fell: u64,
    pub worse: u64,
}

impl Run {
    // A run that begins with a seed.
    pub fn new(seed: Seed) -> Run {
        Run {
            seed,
            ..Run::default()
        }
    }

    // Counts a fault where something does not hold.
    pub fn expect(&mut self, holds: bool) {
        count(&mut self.worse, !holds);
    }

    // Writes all counts but that of the faults.
    pub fn write(self) {
        self.write_pairs();
        self.write_plans();
        self.write_profiles();
        self.write_unpromised();
    }

    // Writes what pairs were met.
    fn write_pairs(self) {
        write_count(b"pairs ", self.pairs);
        write_count(b"with nothing eased ", self.as_it_was);
        write_count(b"with one number eased ", self.one_eased);
        write_count(b"with records of another kind ", self.other_records);
    }

    // Writes what became of the plans.
    fn write_plans(self) {
        write_count(b"feasible before ", self.feasible);
        write_count(b"feasible only after ", self.feasible_after);
        write_count(b"plans that keep more ", self.plans_more);
        write_count(b"plans that keep the same ", self.plans_same);
    }

    // Writes what became of the profiles.
    fn write_profiles(self) {
        write_count(b"profiles that keep more at some time ", self.profiles_more);
        write_count(
            b"profiles that keep the same at every time ",
            self.profiles_same,
        );
        write_count(b"tails ", self.tails);
        write_count(b"tails that keep more at some time ", self.tails_more);
        write_count(b"tails passed over ", self.passed_over);
        write_count(b"lookups ", self.lookups);
        write_count(b"lookups that found more ", self.lookups_more);
    }

    // Writes what an easier order does not promise.
    fn write_unpromised(self) {
        write_count(b"plans with a later finish ", self.later);
        write_count(b"plans that leave out a job kept before ", self.left_out);
        write_count(b"point totals that rose ", self.points_rose);
        write_count(b"point totals that fell ", self.points_fell);
    }
}
