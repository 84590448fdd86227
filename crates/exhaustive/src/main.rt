// Compares the library's calls with a planner by trial on many drawn orders and profiles, and writes
// what was met and compared, a count to a line. No answer may differ.
#![tactic(auto)]

mod choices;
mod counts;
mod extended;
mod plans;

use careful::{lend, plus};
use choices::check_choice;
use counts::Run;
use extended::{check_extend, check_join, check_lookups};
use plans::{check_halves, check_plan};
use trial_orders::{
    HALVES_KINDS, KINDS, Kind, Order, Seed, draw_damage, draw_look, draw_order, draw_profile,
    halves_kind_of, kind_of,
};

// How many rounds there are, the first seed, and that of the orders of halves.
const ROUNDS: u64 = 1_200;

const SEED: Seed = Seed(20_261_115);

const HALVES_SEED: Seed = Seed(31_326_063);

// Two orders planned, and chosen between at a time, at the bus-free time of the first one's plan and the second
// before.
fn compare_orders(run: &mut Run, one: Order<'_>, other: Order<'_>, t: i32) {
    check_plan(run, one);
    check_plan(run, other);
    let free = by_hand::best_choice(one.numbers, one.t0).map_or(0, |best| best.free);
    check_choice(run, one, other, t);
    check_choice(run, one, other, free);
    check_choice(run, one, other, plus(free, -1));
}

// Two orders of a kind drawn and compared.
fn try_orders(run: &mut Run, kind: Kind) {
    let mut first = [0; 70];
    let one = draw_order(&mut run.seed, kind, &mut first);
    let mut second = [0; 70];
    let other = draw_order(&mut run.seed, kind, &mut second);
    let look = draw_look(&mut run.seed, kind);
    compare_orders(run, one, other, look);
}

// Two profiles looked up, joined, and extended by an order.
fn compare_profiles(run: &mut Run, one: &[i32], other: &[i32], order: Order<'_>) {
    check_lookups(run, one);
    check_join(run, one, other);
    check_extend(run, one, order);
    check_extend(run, other, order);
}

// An order and two profiles of a kind drawn and compared.
fn try_profiles(run: &mut Run, kind: Kind) {
    let mut jobs = [0; 70];
    let order = draw_order(&mut run.seed, kind, &mut jobs);
    let mut first = [0; 8];
    let one = draw_profile(&mut run.seed, kind, &mut first);
    let mut second = [0; 8];
    let other = draw_profile(&mut run.seed, kind, &mut second);
    compare_profiles(run, one, other, order);
}

// An order of halves drawn, damaged or not, and compared.
fn try_halves(run: &mut Run, kind: Kind) {
    let mut jobs = [0; 70];
    let Order { numbers, t0 } = draw_order(&mut run.halves_seed, kind, &mut jobs);
    let size = numbers.len();
    let numbers = lend(&mut jobs, size);
    draw_damage(&mut run.halves_seed, kind, numbers);
    check_halves(run, Order { numbers, t0 });
}

// A round: a kind's orders and profiles, and orders of halves.
fn play_round(run: &mut Run, round: u64) {
    let kind = kind_of(round % KINDS);
    try_orders(run, kind);
    try_profiles(run, kind);
    try_halves(run, halves_kind_of(round % HALVES_KINDS));
}

// All rounds, the kinds in turn.
fn main() {
    let mut run = Run {
        seed: SEED,
        halves_seed: HALVES_SEED,
        ..Run::default()
    };
    for round in (0..ROUNDS).rev() {
        play_round(&mut run, round);
    }
    run.write_counts();
}
