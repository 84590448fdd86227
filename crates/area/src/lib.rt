// The lent work area: how long it is, and its clearing. Assumes nothing.
#![tactic(auto)]

ghost use Rattle.std.specs.Prelude.{◌≡◌, ◌≤◌, length};
ghost use Rattle.area.specs.Area.{area, cleared};

// How many numbers a call that plans is lent.
pub const AREA: usize = 14_749;

// All of the area becomes 0.
pub fn clear(work: &mut [i32])
    requires { area ≤ length work.old }
    ensures { work.new ≡ cleared work.old }
{
    work[..AREA].fill(0);
}
