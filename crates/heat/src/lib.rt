// Heat-up lengths: the seconds of heating for the byte that the sampler gives, by the two slopes of the
// rule. Every byte has an answer; below -30 degrees it is a refusal. Assumes nothing.
#![tactic(auto)]

ghost use Rattle.std.specs.Prelude.{◌≡◌, ◌≤◌, pos, ◌-ℤ◌, nat_abs, ◌≤ℤ◌};
ghost use Rattle.seconds.specs.Limits.{coldest};
ghost use Rattle.heat.specs.Heat.{degree_of, heat_at};
ghost use Rattle.heat.specs.Answer.{heating_of};

use refusals::Reason;

// The degree that a byte means: above 127 it is its value less 256.
fn degree(byte: u8) -> i32
    ensures { result ≡ degree_of byte }
{
    i32::from(byte.cast_signed())
}

// How far a cell of -30 degrees or more lies below a mark of at most 10.
fn degrees_below(mark: i32, cell: i32) -> u32
    requires { (coldest ≤ℤ cell) × (cell ≤ℤ mark) × (mark ≤ℤ pos 10) }
    ensures { (result ≡ nat_abs (mark -ℤ cell)) × (result ≤ 40) }
{
    (mark - cell) as u32
}

// The seconds of heating at a degree of -30 or more, by two slopes that meet at -10 degrees and 900 seconds.
fn seconds_at(cell: i32) -> u32
    requires { coldest ≤ℤ cell }
    ensures { result ≡ heat_at cell }
{
    if cell >= 10 {
        return 0;
    }
    if cell >= -10 {
        return 45 * degrees_below(10, cell);
    }
    900 + 120 * degrees_below(-10, cell)
}

// The seconds of heating that a cell wants; none where it is too cold.
pub fn heat_up(byte: u8) -> Result<u32, Reason>
    ensures { result ≡ heating_of byte }
{
    let cell = degree(byte);
    if cell < -30 {
        return Err(Reason::CellTooCold);
    }
    Ok(seconds_at(cell))
}
