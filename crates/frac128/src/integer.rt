//! Steps on whole numbers: a product, a sum and a quotient. `times` and `plus` are where an operation finds out that a
//! number passes 128 bits. `times` and `shrink` take a short way where their operands have 63 bits and a sign.
ghost use Rattle.std.specs.Prelude.{◌≡◌, ◌<◌, ◌^◌, ◌/◌, pos, ◌<ℤ◌, ◌*ℤ◌, ◌+ℤ◌, ◌↔◌, IsTrue, unsigned_abs, int_div};
ghost use Rattle.algebra.specs.Gcd.{gcd};
ghost use Rattle.frac128.specs.Bounds.{IsWithin, KeptWithin};

use crate::gcd::divisor;

pub(crate) fn times(a: i128, b: i128) -> Option<i128>
    ensures { KeptWithin (a *ℤ b) result }
{
    if is_half(a) && is_half(b) {
        return Some(times_halves(a, b));
    }
    match a.checked_mul(b) {
        Some(i128::MIN) | None => None,
        Some(product) => Some(product),
    }
}

// Whether a number has at most 63 bits and a sign: the product of two such numbers never passes.
pub(crate) fn is_half(z: i128) -> bool
    ensures { IsTrue result ↔ (unsigned_abs z < 2 ^ 63) }
{
    z.unsigned_abs() < 1 << 63
}

pub(crate) fn times_halves(a: i128, b: i128) -> i128
    requires left { unsigned_abs a < 2 ^ 63 }
    requires right { unsigned_abs b < 2 ^ 63 }
    ensures value { result ≡ a *ℤ b }
    ensures within { IsWithin result }
{
    a * b
}

pub(crate) fn plus(a: i128, b: i128) -> Option<i128>
    ensures { KeptWithin (a +ℤ b) result }
{
    match a.checked_add(b) {
        Some(i128::MIN) | None => None,
        Some(sum) => Some(sum),
    }
}

// The quotient of `z` by one of its divisors.
pub(crate) fn shrink(z: i128, by: u128) -> i128
    requires divisor { 0 < by }
    requires small { by < 2 ^ 127 }
    requires bounded { IsWithin z }
    ensures value { result ≡ int_div z (pos by) }
    ensures within { IsWithin result }
{
    if by == 1 {
        z
    } else if is_half(z) && by < 1 << 63 {
        i128::from(z as i64 / by as i64)
    } else {
        z / by as i128
    }
}

// A numerator and a denominator divided by what they share.
pub(crate) fn reduced(num: i128, den: i128) -> (i128, i128)
    requires positive { pos 0 <ℤ den }
    requires bounded { IsWithin num }
    ensures num { result.0 ≡ int_div num (pos (gcd (unsigned_abs num) (unsigned_abs den))) }
    ensures den { result.1 ≡ pos (unsigned_abs den / gcd (unsigned_abs num) (unsigned_abs den)) }
    ensures within { IsWithin result.0 × IsWithin result.1 }
{
    let divisor = divisor(num, den);
    (shrink(num, divisor), shrink(den, divisor))
}
