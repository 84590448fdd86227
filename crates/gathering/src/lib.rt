// The list of points of cells, written at the front of the lent work area: a cell is a point where it is less than the next one. A
// number that is no point is overwritten by the next, so no turn branches on what it reads. Assumes nothing.
#![tactic(auto)]

ghost use Rattle.std.specs.Prelude.{◌≡◌, cond, ◌+◌, ◌<◌, length, set};
ghost use Rattle.cells.specs.Laying.{is_point};
ghost use Rattle.gathering.specs.Points.{CanGather, Gathered};

// A cell written at a place, and the place after it where it is a point.
fn keep(work: &mut [i32], at: usize, cell: i32, next: i32) -> usize
    requires { at < length work.old }
    ensures place { result ≡ at + cond (is_point cell next) 1 0 }
    ensures written { work.new ≡ set work.old at cell }
{
    work[at] = cell;
    at + usize::from(cell < next)
}

// The points of the first so many cells, of which the last is one, written at the front. Returns how many they are.
pub fn gather(row: &[i32], end: usize, work: &mut [i32]) -> usize
    requires { CanGather row.now end work.old }
    ensures { Gathered row.now end work.old result work.new }
{
    let mut n = 0;
    for x in 0..end {
        n = keep(work, n, row[x], row[x + 1]);
    }
    n
}
