// A list of points as cells by weight: for each weight up to the heaviest the number of the earliest time at which at least that
// weight is kept, and past it a number past all. Loops over cells do not wait for each other. Assumes nothing.
#![tactic(auto)]

ghost use Rattle.std.specs.Prelude.{◌≡◌, [], ◌+◌, ◌-◌, ◌≤◌, pos, ◌+ℤ◌, ◌-ℤ◌, ◌≤ℤ◌, length};
ghost use Rattle.codes.specs.Code.{at0, lightness, points_at, past_all};
ghost use Rattle.cells.specs.Cells.{wide, Cells, Put, CanCount, CanRun, CanSpread};
ghost use Rattle.cells.specs.Cells.{moved_on, CanMove, CanMoveAll, CanPushCells, PushedCells};
ghost use Rattle.cells.specs.Laying.{rises_to, Laid, CanLower, lowered};

use codes::{PAST, Prefix, light_in};

// The cells of a row.
pub const WIDE: usize = 320;

pub type Row = [i32; WIDE];

// A row for cells.
pub fn blank_row() -> Row
    ensures { length result ≡ wide }
{
    [0; WIDE]
}

// How many cells a list has whose last number is this.
pub fn cells_to(code: i32) -> usize
    requires { pos 0 ≤ℤ code }
    ensures { result ≡ 512 - lightness code }
{
    512 - light_in(code)
}

// A number less a weight.
fn below(top: i32, x: usize) -> i32
    requires { CanCount top x }
    ensures { result ≡ top -ℤ pos x }
{
    top - x as i32
}

// A number more a weight.
fn above(code: i32, x: usize) -> i32
    requires { CanCount code x }
    ensures { result ≡ code +ℤ pos x }
{
    code + x as i32
}

// Cells of one time from a place to an end, each one heavier than the one before.
fn put_run(row: &mut [i32], from: usize, end: usize, top: i32)
    requires { CanRun row.old from end top }
    ensures { Put (λ x. top -ℤ pos x) from end row.old row.new }
{
    for x in from..end {
        row[x] = below(top, x);
    }
}

// No cells from a place to an end.
pub fn wipe(row: &mut [i32], from: usize, end: usize)
    requires { (from ≤ end) × (end ≤ length row.old) }
    ensures { Put (λ x. past_all) from end row.old row.new }
{
    row[from..end].fill(PAST);
}

// The cells of a list, in a row that has none.
fn put_list(work: &[i32], list: Prefix, row: &mut [i32])
    requires { CanSpread work.now list row.old × Cells row.old [] }
    ensures { Cells row.new (points_at work.now list) }
{
    let mut x = 0;
    for &code in &work[list.place..list.place + list.count] {
        let end = cells_to(code);
        put_run(row, x, end, above(code, end - 1));
        x = end;
    }
}

// The cells of a list.
pub fn spread(work: &[i32], list: Prefix, row: &mut [i32])
    requires { CanSpread work.now list row.old }
    ensures { Cells row.new (points_at work.now list) }
{
    wipe(row, 0, WIDE);
    put_list(work, list, row);
}

// A cell as a job finds it when it is ready, moved on.
fn moved_on(cell: i32, x: usize, limit: i32, delta: i32) -> i32
    requires { CanMove cell x limit delta }
    ensures { result ≡ moved_on limit delta cell x }
{
    cell.max(below(limit, x)) + delta
}

// The first so many cells moved on.
fn move_cells(row: &[i32], end: usize, limit: i32, delta: i32, gain: usize, pushed: &mut [i32])
    requires { CanMoveAll row.now end limit delta gain pushed.old }
    ensures { Put (λ y. moved_on limit delta (at0 row.now (y - gain)) (y - gain)) gain (gain + end)
        pushed.old pushed.new }
{
    for x in 0..end {
        pushed[gain + x] = moved_on(row[x], x, limit, delta);
    }
}

// The first so many cells pushed by a job: those lighter than the job are of the time of the first.
// (a) `end` and `gain` stay beside the whole rows: this function's contract says what stays of the row pushed to behind them.
pub fn push_cells(row: &[i32], end: usize, limit: i32, delta: i32, gain: usize, pushed: &mut [i32])
    requires { CanPushCells row.now end limit delta gain pushed.old }
    ensures { PushedCells row.now end limit delta gain pushed.old pushed.new }
{
    move_cells(row, end, limit, delta, gain, pushed);
    let first = above(pushed[gain], gain);
    put_run(pushed, 0, gain, first);
}

// The lesser of both, cell by cell, laid at a place of the work area too. Returns how many of them are greater than the one
// before: as many of the cells before the last are points.
// (a) `end` and `at` stay beside the whole rows: this function's contract says what stays of them behind the end and before the place.
pub fn lower(row: &mut [i32], pushed: &[i32], end: usize, work: &mut [i32], at: usize) -> u32
    requires { CanLower row.old pushed.now end work.old at }
    ensures row { Put (lowered row.old pushed.now) 0 end row.old row.new }
    ensures laid { Laid (lowered row.old pushed.now) 0 end at work.old work.new }
    ensures counted { result ≡ rises_to (lowered row.old pushed.now) end }
{
    let mut n = 0;
    let mut last = PAST;
    for x in 0..end {
        let cell = row[x].min(pushed[x]);
        row[x] = cell;
        work[at + x] = cell;
        n += u32::from(last < cell);
        last = cell;
    }
    n
}
