// The morning of the worked example with job 12 made shorter, second by second: what its plan comes to at some
// lengths, and each length held against the one before.
use crate::counts::Run;
use crate::pairs::compare_orders;
use crate::plans::plan_of;
use careful::{count_of, number_of};
use comparing::{pack_order, write_count, write_figure};
use planner::Figures;
use trial_orders::{Order, Seed, kind_of};

// When the bus is free.
const FREE: i32 = -600;

// The kind of the tails: at the first second, before all jobs.
const TAILS: u64 = 6;

// Where the length of job 12 stands, and the length that it has.
const PLACE: usize = 19;

const LONGEST: u64 = 200;

// The jobs of the morning in their sequence, seven numbers each.
const JOBS: [i32; 35] = [
    7, 0, 1, 0, -600, 495, 0, 3, 0, 0, 20, -200, 300, 250, 12, 0, 0, 15, 0, 200, 300, 5, 0, 1, 0,
    100, 100, 450, 9, 0, 0, 15, 0, 100, 500,
];

// The jobs with job 12 of a length.
fn morning(length: u64) -> [i32; 35] {
    let mut jobs = JOBS;
    jobs[PLACE] = number_of(length);
    jobs
}

// Writes what a plan comes to on a line, behind the length of job 12. None here finishes before 0.
fn write_line(length: u64, figures: Figures) {
    write_figure(b"length ", length);
    write_figure(b", jobs kept ", figures.kept as u64);
    write_figure(b", weight kept ", figures.kept_weight as u64);
    write_figure(b", finish ", count_of(figures.finish));
    write_count(b", points ", figures.points as u64);
}

// Writes what the plan of the morning comes to with job 12 of a length.
pub fn write_morning(length: u64) {
    let mut space = [0; 94];
    let order = pack_order(FREE, &morning(length), &mut space);
    if let Ok(figures) = plan_of(order) {
        write_line(length, figures);
    }
}

// The morning with job 12 of a length, held against the same a second longer.
fn compare_lengths(run: &mut Run, length: u64) {
    let old = Order {
        numbers: &morning(length.saturating_add(1)),
        t0: FREE,
    };
    let new = Order {
        numbers: &morning(length),
        t0: FREE,
    };
    compare_orders(run, kind_of(TAILS), old, new);
}

// All lengths below that of job 12, each held against the one a second longer. Tails are drawn from a seed on.
pub fn shorten(seed: Seed) -> Run {
    let mut run = Run::new(seed);
    for length in (1..LONGEST).rev() {
        compare_lengths(&mut run, length);
    }
    run
}
