// The lists of an order in the lent work area: the list of points before its first job, from a bus-free time or a profile, and
// behind it the list after each job of a packed order. Assumes nothing.
#![tactic(auto)]

ghost use Rattle.std.specs.Prelude.{◌≡◌, true, false, [], ◌∷◌, length};
ghost use Rattle.profile.specs.Profile.{last_weight, start_point};
ghost use Rattle.profiles.specs.Numbers.{holds_profile};
ghost use Rattle.profiles.specs.Places.{points_of};
ghost use Rattle.codes.specs.Held.{Held};
ghost use Rattle.stepping.specs.Stepping.{Buffer};
ghost use Rattle.filling.specs.Lists.{noted, CanRead, TaskIs, as_stretch, CanFillOne, FilledOne};
ghost use Rattle.filling.specs.Lists.{CanFillLists, FilledSofar, CanFillCells, FilledCells, Filled, CanFill, FilledLast};
ghost use Rattle.filling.specs.Begin.{CanStart, CanBegin, Begun};

use cells::{blank_row, spread};
use codes::{PAST, Prefix, code_of};
use jobs::Records;
use pushing::Rate;
use stepping::{Terms, step};
use sweeping::{Stretch, many_late, settle, sweep};

// A note for the list before each job and after the last.
const NOTES: usize = 49;

// A job as it steps a list: on what terms it runs, and its one rate.
#[derive(Clone, Copy)]
struct Task {
    terms: Terms,
    rate: Rate,
}

// The list after one more job, the weight of the job, and whether many points of the list are past the job's ready time.
#[derive(Clone, Copy)]
struct NextList {
    list: Prefix,
    weight: usize,
    late: bool,
}

// The same where a stretch says the list.
#[derive(Clone, Copy)]
struct NextCells {
    stretch: Stretch,
    weight: usize,
}

// What all lists after a job have in points, and all jobs in weight.
#[derive(Clone, Copy)]
pub struct Totals {
    pub points: usize,
    pub weight: usize,
}

// How far the lists are filled as lists: after so many jobs, the list after them, and the totals.
#[derive(Clone, Copy)]
struct Sofar {
    jobs: usize,
    list: Prefix,
    totals: Totals,
}

// The job at a place, from its record.
fn task_in(records: Records, k: usize) -> Task
    requires { CanRead records.bytes.now k }
    ensures { TaskIs records.entry.bytes.now k result }
{
    let job = records.job_at(k);
    let terms = Terms {
        critical: job.critical == 1,
        ready: job.ready,
        deadline: job.deadline,
    };
    let rate = Rate {
        takes: job.length as usize,
        gain: job.weight as usize,
    };
    Task { terms, rate }
}

// The list after the job at a place, from the list before it, by the three cases.
fn list_one(
    work: &mut [i32],
    records: Records,
    k: usize,
    list: Prefix,
    pushed: &mut [i32],
) -> NextList
    requires { CanFillOne records.bytes.now k (as_stretch list) false work.old pushed.old [] }
    ensures { FilledOne records.entry.bytes.now k (as_stretch list) false work.old [] (as_stretch result.list) result.weight work.new
        pushed.new [] }
{
    let task = task_in(records, k);
    let list = step(work, list, task.terms, task.rate, pushed);
    let late = many_late(work, list, task.terms.ready);
    NextList {
        list,
        weight: task.rate.gain,
        late,
    }
}

// The same by the cells of the list, which become those of the list after the job.
fn cells_one(
    work: &mut [i32],
    records: Records,
    k: usize,
    from: Stretch,
    pushed: &mut [i32],
    row: &mut [i32],
) -> NextCells
    requires { CanFillOne records.bytes.now k from true work.old pushed.old row.old }
    ensures { FilledOne records.entry.bytes.now k from true work.old row.old result.stretch result.weight work.new pushed.new row.new }
{
    let task = task_in(records, k);
    let stretch = sweep(work, from, task.terms, task.rate, pushed, row);
    NextCells {
        stretch,
        weight: task.rate.gain,
    }
}

// A buffer for a pushed list: a number past all at its top, and one more behind it.
fn buffer() -> [i32; 304]
    ensures { Buffer result }
{
    [PAST; 304]
}

// Notes for the lists, of which the first stands at the front.
pub fn notes(count: usize) -> [Prefix; NOTES]
    ensures long { length result ≡ 49 }
    ensures first { noted result 0 ≡ record { place = 0; count = count } }
{
    [Prefix { place: 0, count }; NOTES]
}

// The lists after each of the jobs, behind a first list at the front, as long as few points are past a job's ready time. They
// are noted behind the first, which is noted at 0.
fn fill_by_lists(work: &mut [i32], records: Records, notes: &mut [Prefix]) -> Sofar
    requires { CanFillLists records.bytes.now records.count work.old notes.old }
    ensures { FilledSofar records.entry.bytes.now records.entry.count (noted notes.old 0).count work.old result notes.new work.new }
{
    let mut pushed = buffer();
    let mut list = notes[0];
    let mut totals = Totals {
        points: 0,
        weight: 0,
    };
    for k in 0..records.count {
        let next = list_one(work, records, k, list, &mut pushed);
        list = next.list;
        totals.points += list.count;
        totals.weight += next.weight;
        notes[k + 1] = list;
        if next.late {
            return Sofar {
                jobs: k + 1,
                list,
                totals,
            };
        }
    }
    Sofar {
        jobs: records.count,
        list,
        totals,
    }
}

// The lists after the other jobs, by cells in a row.
fn fill_by_cells(
    work: &mut [i32],
    records: Records,
    sofar: Sofar,
    notes: &mut [Prefix],
    row: &mut [i32],
) -> Totals
    requires { CanFillCells records.bytes.now records.count sofar work.old notes.old row.old }
    ensures { FilledCells records.entry.bytes.now records.entry.count sofar work.old notes.old result notes.new work.new row.new }
{
    let mut pushed = buffer();
    spread(work, sofar.list, row);
    let mut last = Stretch {
        list: sofar.list,
        points: sofar.list.count,
    };
    let mut totals = sofar.totals;
    for k in sofar.jobs..records.count {
        let next = cells_one(work, records, k, last, &mut pushed, row);
        last = next.stretch;
        totals.points += last.points;
        totals.weight += next.weight;
        notes[k + 1] = last.list;
    }
    totals
}

// The lists after each of the jobs, behind a first list at the front: as lists, and from the first with many late points on by cells.
pub fn fill_lists(work: &mut [i32], records: Records, notes: &mut [Prefix]) -> Totals
    requires { CanFillLists records.bytes.now records.count work.old notes.old }
    ensures { Filled records.entry.bytes.now records.entry.count (noted notes.old 0).count work.old result notes.new work.new }
{
    let sofar = fill_by_lists(work, records, notes);
    if sofar.jobs < records.count {
        let mut row = blank_row();
        return fill_by_cells(work, records, sofar, notes, &mut row);
    }
    sofar.totals
}

// The list after all of the jobs, from a first list at the front.
pub fn fill_last(work: &mut [i32], records: Records, count: usize) -> Prefix
    requires { CanFill records.bytes.now records.count count work.old }
    ensures { FilledLast records.entry.bytes.now count work.old result work.new }
{
    let mut noted = notes(count);
    let sofar = fill_by_lists(work, records, &mut noted);
    if sofar.jobs < records.count {
        let mut row = blank_row();
        fill_by_cells(work, records, sofar, &mut noted, &mut row);
        return settle(work, noted[records.count], &row);
    }
    sofar.list
}

// The list before the first job: the bus is free at `t0` with nothing kept.
pub fn start_at(work: &mut [i32], t0: i32)
    requires { CanStart t0 work.old }
    ensures { Held work.new 0 (start_point t0 ∷ []) }
{
    work[0] = code_of(t0, 0);
}

// The list before the first job: a profile. Returns how many points it has.
pub fn start_profile(work: &mut [i32], numbers: &[i32]) -> usize
    requires { CanBegin numbers.now work.old }
    ensures { Begun (points_of numbers.now) result work.new }
{
    let many = numbers.len() / 2;
    for k in 0..many {
        let weight = numbers[2 * k + 1] as usize;
        work[k] = code_of(numbers[2 * k], weight);
    }
    many
}

// The last weight of a profile, 0 if it is empty.
pub fn last_weight(numbers: &[i32]) -> usize
    requires { holds_profile numbers.now ≡ true }
    ensures { result ≡ last_weight (points_of numbers.now) }
{
    let n = numbers.len();
    if n == 0 {
        return 0;
    }
    numbers[n - 1] as usize
}
