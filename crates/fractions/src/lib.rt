// Fractions in lowest terms. Assumes nothing.
#![tactic(auto)]

ghost use Rattle.std.specs.Prelude.{◌≡◌, ◌≤◌};
ghost use Rattle.fractions.specs.Fractions.{lowest_of};

use multiples::gcd;

// A fraction: its upper and its lower number.
#[derive(Clone, Copy)]
pub struct Fraction {
    pub upper: u32,
    pub lower: u32,
}

// The fraction a / b in lowest terms: both numbers over their greatest common divisor.
pub fn lowest_terms(a: u32, b: u32) -> Fraction
    requires { 1 ≤ b }
    ensures { result ≡ lowest_of a b }
{
    let common = gcd(a, b);
    Fraction {
        upper: a / common,
        lower: b / common,
    }
}
