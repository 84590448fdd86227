// The plans of two orders held against each other: the second is feasible where the first is, and is no worse.
use crate::counts::Run;
use comparing::{MARK, count, says};
use packed::Refusal;
use planner::Figures;
use refusals::Reason;

// The plan of an order.
pub fn plan_of(order: &[u8]) -> Result<Figures, Refusal> {
    let mut starts = [MARK; 12];
    let mut work = [MARK; 14_750];
    planner::plan(order, &mut starts, &mut work)
}

// Whether there is a plan, or none since no choice may be run.
fn is_known(plan: Result<Figures, Refusal>) -> bool {
    match plan {
        Ok(_) => true,
        Err(refusal) => says(refusal, Reason::NoFeasibleChoice, 0),
    }
}

impl Run {
    // Two plans, the second of which keeps no less, loses no more and, where it keeps as much, finishes no later. It
    // may finish later where it keeps more, leave out what was kept, and have more points or fewer: no easier order
    // promises that.
    fn compare_figures(&mut self, before: Figures, after: Figures) {
        let more = before.kept_weight < after.kept_weight;
        let as_much = before.kept_weight == after.kept_weight;
        let lost = after.lost_weight <= before.lost_weight;
        let sooner = more || after.finish <= before.finish;
        self.expect((more || as_much) && lost && sooner);
        count(&mut self.plans_more, more);
        count(&mut self.plans_same, as_much);
        count(&mut self.later, before.finish < after.finish);
        count(&mut self.left_out, before.mask & after.mask != before.mask);
        count(&mut self.points_rose, before.points < after.points);
        count(&mut self.points_fell, after.points < before.points);
    }

    // The plans of two orders, the second of which is feasible where the first is.
    pub fn compare_plans(
        &mut self,
        before: Result<Figures, Refusal>,
        after: Result<Figures, Refusal>,
    ) {
        let known = is_known(before) && is_known(after);
        self.expect(known && (before.is_err() || after.is_ok()));
        count(&mut self.feasible, before.is_ok());
        count(&mut self.feasible_after, before.is_err() && after.is_ok());
        if let (Ok(before), Ok(after)) = (before, after) {
            self.compare_figures(before, after);
        }
    }
}
