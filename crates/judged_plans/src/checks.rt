// The calls on plans compared with the judge by trial: their answers, all that they wrote, and that they
// wrote no more.
use crate::Trial;
use crate::counts::Run;
use by_hand::{Judged, LEFT_OUT};
use careful::{all_are, front};
use comparing::{MARK, answers, count, leaves};
use refusals::Reason;

// What lent bytes hold before a call, so that every byte written shows.
const MARK_BYTE: u8 = 0xA5;

// Whether asking for best gives the answer expected; a refused plan leaves the work area as it was.
fn best_agrees(order: &[u8], plan: &[u8], expected: Result<bool, Reason>) -> bool {
    let mut work = [MARK; 14_750];
    let answer = best_plan::best(order, plan, &mut work);
    let held = if expected.is_ok() { 0 } else { MARK };
    answers(answer, expected) && leaves(&work, held)
}

// Whether a plan that was judged is best: legal, and of no less weight than the best choice.
fn is_best(trial: Trial, judged: Judged) -> bool {
    let heaviest = trial.best.is_some_and(|best| best.weight <= judged.weight);
    judged.broken.is_none() && heaviest
}

// A plan for an order, held by the calls to what it was judged to be by trial.
pub fn check_plan(run: &mut Run, trial: Trial, plan: &[u8], judged: Result<Judged, Reason>) {
    let legal = judged.map(|judged| judged.broken.is_none());
    let best = judged.map(|judged| is_best(trial, judged));
    run.expect(answers(checking::legal(trial.order, plan), legal));
    run.expect(best_agrees(trial.order, plan, best));
    run.count_plan(judged, best == Ok(true));
}

// The plan that must be written, or why there is none. Returns how many bytes it has.
fn expect_plan(trial: Trial, plan: &mut [u8]) -> Result<usize, Reason> {
    let best = trial.best.ok_or(Reason::NoFeasibleChoice)?;
    let mut starts = [LEFT_OUT; 48];
    by_hand::write_starts(trial.numbers, trial.t0, best.choice, &mut starts);
    Ok(by_hand::pack_plan(&starts, plan))
}

// Our own plan of an order written. Returns whether it has so many bytes, or is refused for this reason.
fn write_agrees(order: &[u8], size: Result<usize, Reason>, out: &mut [u8]) -> bool {
    let mut work = [MARK; 14_750];
    let answer = plan_writer::write_plan(order, out, &mut work);
    answers(answer, size) && leaves(&work, 0)
}

// Whether writing a plan refuses a short room, and leaves it as it was.
fn refuses_short(order: &[u8], work: &mut [i32]) -> bool {
    let mut out = [MARK_BYTE; 113];
    let answer = plan_writer::write_plan(order, &mut out, work);
    answers(answer, Err(Reason::BufferTooShort)) && out == [MARK_BYTE; 113]
}

// Whether both calls with a room refuse a short one, and leave it as it was. A plan that keeps nothing is
// accepted for every order.
fn refuse_short(order: &[u8]) -> bool {
    let mut work = [MARK; 14_748];
    let answer = best_plan::best(order, &[0; 6], &mut work);
    answers(answer, Err(Reason::BufferTooShort))
        && refuses_short(order, &mut work)
        && all_are(&work, MARK)
}

// What was written for an order, judged as any plan; it must be legal and best.
fn check_ours(run: &mut Run, trial: Trial, plan: &[u8]) {
    let judged = by_hand::judge_plan(trial.numbers, trial.t0, plan);
    let weight = trial.best.map(|best| best.weight);
    run.expect(judged.is_ok_and(|judged| judged.broken.is_none() && weight == Some(judged.weight)));
    check_plan(run, trial, plan, judged);
    count(&mut run.ours, true);
}

// Our own plan of an order: written as it is packed by trial, and judged.
pub fn check_written(run: &mut Run, trial: Trial) {
    let mut expected = [MARK_BYTE; 116];
    let mut out = [MARK_BYTE; 116];
    let size = expect_plan(trial, &mut expected);
    let agrees = write_agrees(trial.order, size, &mut out);
    run.expect(agrees && out == expected && refuse_short(trial.order));
    if let Ok(size) = size {
        check_ours(run, trial, front(&out, size));
    }
}
