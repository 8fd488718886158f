//! The order of fractions, and the greatest whole number not above one. Begin with `cmp`: it compares the cross
//! products, which may pass 128 bits, so that no comparison is ever refused.
ghost use Rattle.std.specs.Prelude.{◌≡◌, ◌<◌, ◌*◌, pos, ◌<ℤ◌, ◌*ℤ◌};
ghost use Rattle.std.specs.Ordering.{nat_cmp, int_cmp};
ghost use Rattle.frac128.specs.Order.{Compares, IsFloor};

use crate::fraction::Frac;
use crate::integer::{is_half, times_halves};
use std::cmp::Ordering;

impl Frac {
    /// Exact, whatever the size of the two.
    pub fn cmp(&self, y: &Frac) -> Ordering
        ensures { Compares self.now y.now result }
    {
        compare_cross(self.num(), self.den(), y.num(), y.den())
    }

    /// The greatest whole number that isn't above it.
    pub fn floor(&self) -> i128
        ensures { IsFloor self.now result }
    {
        self.num().div_euclid(self.den())
    }
}

// The order of `a / b` and `c / d`: that of the numerators where the denominators are equal, and else that of the cross
// products, which are taken in 128 bits where the numbers are small enough.
fn compare_cross(a: i128, b: i128, c: i128, d: i128) -> Ordering
    requires below_a { pos 0 <ℤ b }
    requires below_c { pos 0 <ℤ d }
    ensures { result ≡ int_cmp (a *ℤ d) (c *ℤ b) }
{
    if b == d {
        a.cmp(&c)
    } else if is_half(a) && is_half(b) && is_half(c) && is_half(d) {
        times_halves(a, d).cmp(&times_halves(c, b))
    } else {
        compare_wide(a, b.unsigned_abs(), c, d.unsigned_abs())
    }
}

// By the signs, and where they are equal by the products of up to 256 bits.
fn compare_wide(a: i128, b: u128, c: i128, d: u128) -> Ordering
    requires below_a { 0 < b }
    requires below_c { 0 < d }
    ensures { result ≡ int_cmp (a *ℤ pos d) (c *ℤ pos b) }
{
    match (a < 0, c < 0) {
        (false, false) => compare_products(a.unsigned_abs(), d, c.unsigned_abs(), b),
        (true, true) => compare_products(c.unsigned_abs(), b, a.unsigned_abs(), d),
        (true, false) => Ordering::Less,
        (false, true) => Ordering::Greater,
    }
}

// The order of two products, high halves first.
fn compare_products(a: u128, b: u128, c: u128, d: u128) -> Ordering
    ensures { result ≡ nat_cmp (a * b) (c * d) }
{
    let (low, high) = a.carrying_mul(b, 0);
    let (other_low, other_high) = c.carrying_mul(d, 0);
    if high == other_high {
        low.cmp(&other_low)
    } else {
        high.cmp(&other_high)
    }
}
