// Times of the stand: the lesser and the greater of two, and when the bus is free again after a job. Assumes nothing.
#![tactic(auto)]

ghost use Rattle.std.specs.Prelude.{◌≡◌, pos, ◌+ℤ◌};
ghost use Rattle.seconds.specs.Limits.{rest};
ghost use Rattle.seconds.specs.Ranges.{InTime, min_z, max_z};

use profiles::REST;

// The lesser of two times. It and `greater` stay by name: docs/DECISIONS.md and the README have them.
pub fn lesser(a: i32, b: i32) -> i32
    ensures { result ≡ min_z a b }
{
    a.min(b)
}

// The greater of two times.
pub fn greater(a: i32, b: i32) -> i32
    ensures { result ≡ max_z a b }
{
    a.max(b)
}

// When the bus is free again after a finish.
pub fn rested(finish: i32) -> i32
    requires { InTime finish }
    ensures { result ≡ finish +ℤ pos rest }
{
    finish + REST
}
