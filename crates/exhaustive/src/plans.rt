// Planning an order, as any and as one of halves, compared with the planner by trial: the answer, all that
// was written, and that no more was.
use crate::counts::Run;
use by_hand::Best;
use careful::{count_of, is_count, more};
use comparing::{MARK, leaves, pack_order, says};
use halves::HalvesPlan;
use packed::Refusal;
use planner::Figures;
use refusals::Reason;
use trial_orders::Order;

// The figures of the best choice, which planning must answer.
#[derive(Clone, Copy)]
struct Wanted {
    mask: u64,
    kept: u64,
    weight: i32,
    lost: i32,
    seconds: i32,
    free: i32,
    points: u64,
}

// What planning must answer by the best choice of an order.
fn wanted_of(order: Order<'_>, best: Best) -> Wanted {
    let tally = by_hand::tally_of(order.numbers, best.choice);
    Wanted {
        mask: tally.mask,
        kept: tally.kept,
        weight: best.weight,
        lost: tally.lost,
        seconds: tally.seconds,
        free: best.free,
        points: by_hand::point_total(order.numbers, order.t0),
    }
}

// Whether a plan's figures are those wanted.
fn figures_agree(figures: Figures, wanted: Wanted) -> bool {
    figures.mask == wanted.mask
        && figures.kept as u64 == wanted.kept
        && is_count(figures.kept_weight as u64, wanted.weight)
        && is_count(figures.lost_weight as u64, wanted.lost)
        && figures.finish == wanted.free
        && figures.points as u64 == wanted.points
}

// Whether planning answers the figures wanted, or that there is no choice.
fn is_planned(answer: Result<Figures, Refusal>, wanted: Option<Wanted>) -> bool {
    match (answer, wanted) {
        (Ok(figures), Some(wanted)) => figures_agree(figures, wanted),
        (Err(refusal), None) => says(refusal, Reason::NoFeasibleChoice, 0),
        _ => false,
    }
}

// Whether planning an order gives what is wanted and writes the starts expected.
fn plan_agrees(order: &[u8], wanted: Option<Wanted>, expected: &[i32; 12]) -> bool {
    let mut starts = [MARK; 12];
    let mut work = [MARK; 14_750];
    let answer = planner::plan(order, &mut starts, &mut work);
    is_planned(answer, wanted) && starts == *expected && leaves(&work, 0)
}

// Whether planning as one of halves answers the figures wanted and the optional seconds lost, or that there is
// no choice.
fn is_halved(answer: Result<HalvesPlan, Refusal>, wanted: Option<Wanted>) -> bool {
    match (answer, wanted) {
        (Ok(HalvesPlan { figures, seconds }), Some(wanted)) => {
            is_count(seconds as u64, wanted.seconds) && figures_agree(figures, wanted)
        }
        (Err(refusal), None) => says(refusal, Reason::NoFeasibleChoice, 0),
        _ => false,
    }
}

// Whether planning an order as one of halves gives what is wanted and writes the starts expected.
fn halves_agree(order: &[u8], wanted: Option<Wanted>, expected: &[i32; 12]) -> bool {
    let mut starts = [MARK; 12];
    let mut work = [MARK; 14_750];
    let answer = halves::plan_halves(order, &mut starts, &mut work);
    is_halved(answer, wanted) && starts == *expected && leaves(&work, 0)
}

// Whether an order of which a job offends is refused as one of halves with its place, and nothing is written.
fn refuses(order: &[u8], offending: usize) -> bool {
    let mut starts = [MARK; 12];
    let mut work = [MARK; 14_750];
    let told = halves::plan_halves(order, &mut starts, &mut work);
    told.is_err_and(|refusal| says(refusal, Reason::NotOfHalves, offending))
        && starts == [MARK; 12]
        && leaves(&work, MARK)
}

// The starts that a plan must write: none where there is no choice.
fn expected_starts(order: Order<'_>, best: Option<Best>) -> [i32; 12] {
    let mut starts = [MARK; 12];
    if let Some(best) = best {
        by_hand::write_starts(order.numbers, order.t0, best.choice, &mut starts);
    }
    starts
}

// The plan of an order.
pub fn check_plan(run: &mut Run, order: Order<'_>) {
    let best = by_hand::best_choice(order.numbers, order.t0);
    let wanted = best.map(|best| wanted_of(order, best));
    let mut space = [0; 94];
    let bytes = pack_order(order.t0, order.numbers, &mut space);
    run.expect(plan_agrees(bytes, wanted, &expected_starts(order, best)));
    run.orders = more(run.orders, 1);
    run.feasible = more(run.feasible, best.is_some() as u64);
    run.ties = more(run.ties, best.is_some_and(|best| best.tied) as u64);
}

// The plan of an order, of halves or not: as any, which does not ask for halves, and as one of halves.
pub fn check_halves(run: &mut Run, order: Order<'_>) {
    let best = by_hand::best_choice(order.numbers, order.t0);
    let wanted = best.map(|best| wanted_of(order, best));
    let starts = expected_starts(order, best);
    let mut space = [0; 94];
    let bytes = pack_order(order.t0, order.numbers, &mut space);
    run.expect(plan_agrees(bytes, wanted, &starts));
    if let Some(place) = by_hand::first_offending(order.numbers) {
        run.expect(refuses(bytes, place));
        run.offending = more(run.offending, 1);
        return;
    }
    run.expect(halves_agree(bytes, wanted, &starts));
    if let Some(wanted) = wanted {
        run.halves = more(run.halves, 1);
        run.seconds = more(run.seconds, count_of(wanted.seconds));
    }
}
