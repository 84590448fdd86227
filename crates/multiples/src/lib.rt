// The greatest common divisor and the least common multiple of numbers: their definitions and laws, and the code that finds
// them.
#![tactic(auto)]

ghost use Rattle.std.specs.Prelude.{◌≡◌};
ghost use Rattle.multiples.specs.Multiples.{BothPositive, gcd as gcd_of, lcm as lcm_of};

// Euclid's greatest common divisor.
pub fn gcd(a: u32, b: u32) -> u32
    ensures { result ≡ gcd_of a b }
{
    let (mut x, mut y) = (a, b);
    // The steps end with the second number at 0, so no range fits.
    while y != 0 {
        (x, y) = (y, x % y);
    }
    x
}

// The least common multiple of two numbers that are not 0; the product is made in 64 bits, so that it cannot overflow.
pub fn lcm(a: u32, b: u32) -> u64
    requires { BothPositive a b }
    ensures { result ≡ lcm_of a b }
{
    let common = gcd(a, b);
    (a / common) as u64 * b as u64
}
