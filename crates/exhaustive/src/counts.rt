// A run so far: the seeds, what was met, what was compared, and how often an answer differed.
use careful::more;
use comparing::write_count;
use trial_orders::Seed;

// How a run stands.
#[derive(Clone, Copy, Default)]
pub struct Run {
    pub seed: Seed,
    pub halves_seed: Seed,
    pub orders: u64,
    pub feasible: u64,
    pub ties: u64,
    pub points: u64,
    pub lookups: u64,
    pub questions: u64,
    pub second_sooner: u64,
    pub halves: u64,
    pub offending: u64,
    pub seconds: u64,
    pub mismatches: u64,
}

impl Run {
    // Counts a mismatch where an answer differs.
    pub fn expect(&mut self, agrees: bool) {
        self.mismatches = more(self.mismatches, !agrees as u64);
    }

    // Writes all counts.
    pub fn write_counts(&self) {
        write_count(b"orders ", self.orders);
        write_count(b"feasible ", self.feasible);
        write_count(b"ties ", self.ties);
        write_count(b"points ", self.points);
        write_count(b"lookups ", self.lookups);
        write_count(b"questions ", self.questions);
        write_count(b"second sooner ", self.second_sooner);
        write_count(b"halves ", self.halves);
        write_count(b"offending ", self.offending);
        write_count(b"seconds lost ", self.seconds);
        write_count(b"mismatches ", self.mismatches);
    }
}
