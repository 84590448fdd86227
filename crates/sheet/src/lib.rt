// Sheets over orders: which numbers are a sheet's, and two sheets joined. A sheet is 26 numbers, 24 of them sums, in the sequence of its
// lines. Any numbers have an answer. Assumes nothing.
#![tactic(auto)]

ghost use Rattle.std.specs.Prelude.{◌≡◌, ◌≤◌, length, sum};
ghost use Rattle.sheet.specs.Sheet.{numbers_of, no_sheet, weights_fit, top_fits, is_sheet, sheet_in, sheet_over, join as join_of};
ghost use Rattle.sheet.specs.Sheet.{figure_count, joins, JoinCall};
ghost use Rattle.sheet.specs.Joining.{CanJoin, partly};

use refusals::Reason;

// How many numbers a sheet has, and how many of them are sums. They stay a slice with a fact on its length: C lends them so, and feeding
// holds them in front of three more.
pub const FIGURES: usize = 26;

pub const SUMS: usize = 24;

// The most orders of a sheet.
pub const MOST: u32 = 10_000;

// Where the figures behind the refusals stand.
pub const FEASIBLE: usize = 20;

pub const OFFERED: usize = 21;

pub const KEPT: usize = 22;

pub const JOBS: usize = 23;

pub const TOP: usize = 24;

pub const PLACE: usize = 25;

// The greatest weight and the most jobs of an order, and the greatest point total and 1.
const WEIGHT: u64 = 300;

const ORDER_JOBS: u64 = 48;

const GREATEST: u32 = 14_449;

// The sheet of no order.
pub fn none() -> [u32; FIGURES]
    ensures { result ≡ numbers_of no_sheet }
{
    [0; FIGURES]
}

// All orders refused and the feasible ones, in 64 bits: no sum of numbers of 32 bits wraps there.
fn judged(refused: &[u32]) -> u64
    requires { length refused.now ≤ 20 }
    ensures { result ≡ sum refused.now }
{
    refused.iter().map(|x| *x as u64).sum()
}

// Whether weights and jobs are no more than so many feasible orders have.
fn weights_fit(can: u32, weight: u32, some: u32, jobs: u32) -> bool
    ensures { result ≡ weights_fit can weight some jobs }
{
    weight as u64 <= WEIGHT * can as u64 && some <= weight && jobs as u64 <= ORDER_JOBS * can as u64
}

// Whether the greatest total and its place are those of so many orders.
fn top_fits(many: u32, can: u32, top: u32, place: u32) -> bool
    ensures { result ≡ top_fits many can top place }
{
    if can == 0 {
        return top == 0 && place == 0;
    }
    0 < top && top <= GREATEST && place < many
}

// Whether some numbers begin with those of a sheet of at most 10,000 orders.
pub fn is_sheet(figures: &[u32]) -> bool
    requires { figure_count ≤ length figures.now }
    ensures { result ≡ is_sheet (sheet_in figures.now) }
{
    let many = figures[0];
    let can = figures[FEASIBLE];
    many <= MOST
        && judged(&figures[1..=FEASIBLE]) == many as u64
        && weights_fit(can, figures[OFFERED], figures[KEPT], figures[JOBS])
        && top_fits(many, can, figures[TOP], figures[PLACE])
}

// The second one's sums added to the first one's, place by place.
fn add_sums(to: &mut [u32], from: &[u32])
    requires { CanJoin to.old from.now }
    ensures { to.new ≡ partly 24 to.old from.now }
{
    for i in 0..SUMS {
        to[i] += from[i];
    }
}

// The second sheet joined to the first: the greater total is taken, and the second's place is moved on.
pub fn join_into(to: &mut [u32], from: &[u32])
    requires { CanJoin to.old from.now }
    ensures { to.new ≡ sheet_over (join_of (sheet_in to.old) (sheet_in from.now)) to.old }
{
    let many = to[0];
    let top = to[TOP];
    let more = from[TOP];
    let place = from[PLACE];
    add_sums(to, from);
    if top < more {
        to[TOP] = more;
        to[PLACE] = many + place;
    }
}

// Whether both are sheets, of at most 10,000 orders together.
fn can_join(to: &[u32], from: &[u32]) -> bool
    requires figure_count_in_bounds { figure_count ≤ length to.now }
    requires figure_count_in_bounds_2 { figure_count ≤ length from.now }
    ensures { result ≡ joins (sheet_in to.now) (sheet_in from.now) }
{
    is_sheet(to) && is_sheet(from) && to[0] + from[0] <= MOST
}

// Two sheets joined, in the first one's numbers. Refused with less room than for a sheet, and where one is none or there are too many
// orders.
pub fn join(figures: &mut [u32], more: &[u32]) -> Result<(), Reason>
    ensures { JoinCall figures.old more.now result figures.new }
{
    if figures.len() < FIGURES || more.len() < FIGURES {
        return Err(Reason::BufferTooShort);
    }
    if !can_join(figures, more) {
        return Err(Reason::NoSheet);
    }
    join_into(figures, more);
    Ok(())
}
