// A run so far: the seed, what was judged, what it was, and how often an answer differed.
use by_hand::{Judged, Rule};
use comparing::{count, write_count};
use refusals::Reason;
use trial_orders::Seed;

// How a run stands: orders; plans of ours and all plans; those refused by their length or their bits, and accepted;
// the legal and the best of these, and those that let the bus wait; and plans of ours with one start a second
// off, by the rule that they break.
#[derive(Clone, Copy, Default)]
pub struct Run {
    pub seed: Seed,
    pub orders: u64,
    pub ours: u64,
    pub plans: u64,
    pub wrong_length: u64,
    pub wrong_bits: u64,
    pub accepted: u64,
    pub legal: u64,
    pub best: u64,
    pub idle_best: u64,
    pub idle_not_best: u64,
    pub off_legal: u64,
    pub off_free: u64,
    pub off_ready: u64,
    pub off_rested: u64,
    pub off_deadline: u64,
    pub mismatches: u64,
}

impl Run {
    // A run that begins with a seed.
    pub fn new(seed: Seed) -> Run {
        Run {
            seed,
            ..Run::default()
        }
    }

    // Counts a mismatch where an answer differs.
    pub fn expect(&mut self, agrees: bool) {
        count(&mut self.mismatches, !agrees);
    }

    // Counts a plan that is accepted by what it was judged to be, and whether it is best.
    fn count_accepted(&mut self, judged: Judged, best: bool) {
        let legal = judged.broken.is_none();
        count(&mut self.accepted, true);
        count(&mut self.legal, legal);
        count(&mut self.best, best);
        count(&mut self.idle_best, best && judged.idle);
        count(&mut self.idle_not_best, legal && !best && judged.idle);
    }

    // Counts a plan by what it was judged to be, and whether it is best.
    pub fn count_plan(&mut self, judged: Result<Judged, Reason>, best: bool) {
        count(&mut self.plans, true);
        match judged {
            Ok(judged) => self.count_accepted(judged, best),
            Err(Reason::PlanWrongLength) => count(&mut self.wrong_length, true),
            Err(_) => count(&mut self.wrong_bits, true),
        }
    }

    // Counts a plan of ours with one start a second off, by the rule that it breaks.
    pub fn count_second(&mut self, broken: Option<Rule>) {
        match broken {
            None => count(&mut self.off_legal, true),
            Some(Rule::BeforeFree) => count(&mut self.off_free, true),
            Some(Rule::BeforeReady) => count(&mut self.off_ready, true),
            Some(Rule::BeforeRested) => count(&mut self.off_rested, true),
            Some(Rule::PastDeadline) => count(&mut self.off_deadline, true),
            Some(Rule::CriticalOut) => {}
        }
    }

    // Writes all counts.
    pub fn write(self) {
        self.write_met();
        self.write_accepted();
        self.write_seconds();
        write_count(b"mismatches ", self.mismatches);
    }

    // Writes how many orders and plans there were.
    fn write_met(self) {
        write_count(b"orders ", self.orders);
        write_count(b"plans of ours ", self.ours);
        write_count(b"plans judged ", self.plans);
        write_count(b"refused with 14 ", self.wrong_length);
        write_count(b"refused with 15 ", self.wrong_bits);
    }

    // Writes how many were accepted, and what they were.
    fn write_accepted(self) {
        write_count(b"accepted ", self.accepted);
        write_count(b"legal ", self.legal);
        write_count(b"best ", self.best);
        write_count(b"idle and best ", self.idle_best);
        write_count(b"idle and not best ", self.idle_not_best);
    }

    // Writes how many of ours were a second off.
    fn write_seconds(self) {
        write_count(b"a second off and legal ", self.off_legal);
        write_count(b"a second before the bus is free ", self.off_free);
        write_count(b"a second before the job is ready ", self.off_ready);
        write_count(b"a second before the rest is over ", self.off_rested);
        write_count(b"a second past the deadline ", self.off_deadline);
    }
}
