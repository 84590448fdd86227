// Compares the calls on packed plans with a judge by trial, on drawn orders with our own plans and drawn
// ones for each, and writes what was judged, a count to a line. No answer may differ.
#![tactic(auto)]

mod changes;
mod checks;
mod counts;

use by_hand::Best;
use careful::front;
use changes::{Change, OF_DRAWN, OF_OURS, draw_plan};
use checks::{check_plan, check_written};
use comparing::{count, pack_order};
use counts::Run;
use trial_orders::{KINDS, Kind, Order, Seed, draw_order, kind_of};

// How many orders there are, and the first seed.
const ROUNDS: u64 = 3_200;

const SEED: Seed = Seed(48_611_903);

// The bytes of a plan that keeps nothing.
const EMPTY: usize = 6;

// An order that plans are judged for: packed, by its jobs' numbers and the time from which on the bus is free, and
// its best choice by trial, if it has one.
#[derive(Clone, Copy)]
pub struct Trial<'a> {
    pub order: &'a [u8],
    pub numbers: &'a [i32],
    pub t0: i32,
    pub best: Option<Best>,
}

// A plan for an order drawn, changed and judged: that of the best choice, if it is given.
fn try_plan(run: &mut Run, change: Change, trial: Trial, best: Option<Best>) {
    let mut space = [0; 116];
    let size = draw_plan(&mut run.seed, change, trial, best, &mut space);
    let plan = front(&space, size);
    let judged = by_hand::judge_plan(trial.numbers, trial.t0, plan);
    let by_second = matches!(change, Change::Sooner | Change::Later);
    if by_second && best.is_some() && size > EMPTY {
        run.count_second(judged.ok().and_then(|judged| judged.broken));
    }
    check_plan(run, trial, plan, judged);
}

// Plans for an order changed in every way.
fn try_plans(run: &mut Run, trial: Trial) {
    for change in OF_OURS {
        try_plan(run, change, trial, trial.best);
    }
    for change in OF_DRAWN {
        try_plan(run, change, trial, None);
    }
}

// Plans for an order judged: what is written for it, and drawn ones.
fn judge_plans(run: &mut Run, Order { numbers, t0 }: Order<'_>) {
    let mut space = [0; 94];
    let trial = Trial {
        order: pack_order(t0, numbers, &mut space),
        numbers,
        t0,
        best: by_hand::best_choice(numbers, t0),
    };
    check_written(run, trial);
    try_plans(run, trial);
    count(&mut run.orders, true);
}

// An order of a kind drawn, and plans for it judged.
fn try_order(run: &mut Run, kind: Kind) {
    let mut jobs = [0; 70];
    let order = draw_order(&mut run.seed, kind, &mut jobs);
    judge_plans(run, order);
}

// All orders, the kinds in turn from the last on.
fn main() {
    let mut run = Run::new(SEED);
    for left in (0..ROUNDS).rev() {
        try_order(&mut run, kind_of(left % KINDS));
    }
    run.write();
}
