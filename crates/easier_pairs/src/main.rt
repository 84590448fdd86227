// Makes drawn orders easier, plans and extends by both, and writes what became of it, a count to a line. An
// easier order never has a worse plan or profile.
#![tactic(auto)]

mod counts;
mod extended;
mod pairs;
mod plans;
mod shorter;

use careful::more;
use comparing::write_count;
use counts::Run;
use pairs::compare_orders;
use shorter::{shorten, write_morning};
use trial_orders::{KINDS, Kind, Seed, draw_order, ease, kind_of};

// How many pairs there are, and the first seed.
const ROUNDS: u64 = 24_000;

const SEED: Seed = Seed(71_530_229);

// An order of a kind drawn and eased, and both compared.
fn try_pair(run: &mut Run, kind: Kind) {
    let mut first = [0; 70];
    let mut second = [0; 70];
    let old = draw_order(&mut run.seed, kind, &mut first);
    let new = ease(&mut run.seed, old, &mut second);
    compare_orders(run, kind, old, new);
}

// All pairs, the kinds in turn from the last on.
fn play_rounds() -> Run {
    let mut run = Run::new(SEED);
    for left in (0..ROUNDS).rev() {
        try_pair(&mut run, kind_of(left % KINDS));
    }
    run
}

fn main() {
    let run = play_rounds();
    let shorter = shorten(run.seed);
    run.write();
    for length in [200, 85, 75, 45] {
        write_morning(length);
    }
    write_count(b"shorter lengths of job 12 ", shorter.pairs);
    write_count(b"worse ", more(run.worse, shorter.worse));
}
