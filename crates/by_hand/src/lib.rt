// A planner by trial, to compare the library with: every choice of an order is counted as a number and
// run job by job, and a packed plan is read bit by bit and judged. It is written from the rules alone, and
// uses nothing of the library but the names of its refusals. A choice's lowest bit is place 0; an order is
// seven numbers a job, of at most ten jobs, and packs are not read; outcomes and profiles are alternating
// numbers, time and weight. Every function is safe and ends. Assumes nothing.
#![tactic(auto)]

mod choices;
mod partners;
mod plans;
mod points;

pub use choices::{Best, LEFT_OUT, Tally, best_choice, tally_of, write_starts};
pub use partners::first_offending;
pub use plans::{Judged, Rule, flip_bit, judge_plan, pack_plan};
pub use points::{Reached, extend, is_profile, join, look_up, point_total, too_heavy, worth};
