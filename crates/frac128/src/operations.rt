//! The four operations. Begin with `sum` and `product`: `sub` is the sum with the negative, `div` the product with the
//! inverse. A greatest common divisor is taken out before two numbers are multiplied, so that fewer numbers
//! pass 128 bits on the way.
ghost use Rattle.std.specs.Prelude.{◌≡◌, ◌≢◌, ◌/◌, pos, int_div, unsigned_abs};
ghost use Rattle.algebra.specs.Gcd.{gcd};
ghost use Rattle.frac128.specs.Bounds.{IsWithin};
ghost use Rattle.frac128.specs.Operations.{Answers, SumOrPast, ProductOrPast};

use crate::fraction::{Frac, lowest, whole_number};
use crate::gcd::divisor;
use crate::integer::{plus, reduced, shrink, times};
use thiserror::Error;

/// An operation on two fractions.
#[derive(Clone, Copy, PartialEq, Eq, Debug)]
pub enum Op {
    Add,
    Sub,
    Mul,
    Div,
}

/// An operation that named a number past 128 bits, with its operands as they were given.
#[derive(Clone, Copy, PartialEq, Eq, Debug, Error)]
#[error("the operation {op:?} passes 128 bits")]
pub struct Wide {
    pub op: Op,
    pub x: Frac,
    pub y: Frac,
}

impl Frac {
    /// The sum, or the operation where a number that it names passes 128 bits.
    pub fn add(&self, y: &Frac) -> Result<Frac, Wide>
        ensures { Answers Op.Add self.now y.now result }
    {
        sum(self, y).ok_or(refusal(Op::Add, self, y))
    }

    /// The difference: the sum with the negative, answered as `Sub` with the operands as they were given.
    pub fn sub(&self, y: &Frac) -> Result<Frac, Wide>
        ensures { Answers Op.Sub self.now y.now result }
    {
        sum(self, &y.neg()).ok_or(refusal(Op::Sub, self, y))
    }

    /// The product; common factors are divided out first.
    pub fn mul(&self, y: &Frac) -> Result<Frac, Wide>
        ensures { Answers Op.Mul self.now y.now result }
    {
        product(self, y).ok_or(refusal(Op::Mul, self, y))
    }

    /// The quotient: the product with the inverse, answered as `Div` with the operands as they were given.
    pub fn div(&self, y: &Frac) -> Result<Frac, Wide>
        requires { y.now.num ≢ pos 0 }
        ensures { Answers Op.Div self.now y.now result }
    {
        product(self, &y.inverse()).ok_or(refusal(Op::Div, self, y))
    }
}

fn refusal(op: Op, x: &Frac, y: &Frac) -> Wide
    ensures { result ≡ record { op = op; x = x.now; y = y.now } }
{
    Wide { op, x: *x, y: *y }
}

// Both over the least common denominator; what the sum then still shares with the old common divisor is taken out.
fn sum(x: &Frac, y: &Frac) -> Option<Frac>
    ensures { SumOrPast x.now y.now result }
{
    if x.is_whole() && y.is_whole() {
        return Some(whole_number(plus(x.num(), y.num())?));
    }
    let (b, d) = (x.den(), y.den());
    let g = divisor(b, d);
    let b_part = shrink(b, g);
    let left = times(x.num(), shrink(d, g))?;
    let right = times(y.num(), b_part)?;
    let sum = plus(left, right)?;
    let h = divisor(sum, g as i128);
    let den = times(b_part, shrink(d, h))?;
    Some(lowest(shrink(sum, h), den))
}

// Divided crosswise first: each numerator by what it shares with the other denominator.
fn product(x: &Frac, y: &Frac) -> Option<Frac>
    ensures { ProductOrPast x.now y.now result }
{
    if x.is_whole() && y.is_whole() {
        return Some(whole_number(times(x.num(), y.num())?));
    }
    let (a, d) = crosswise(x, y);
    let (c, b) = crosswise(y, x);
    let num = times(a, c)?;
    let den = times(b, d)?;
    Some(lowest(num, den))
}

// The numerator of one fraction and the denominator of another, divided by what they share.
fn crosswise(x: &Frac, y: &Frac) -> (i128, i128)
    ensures num { result.0 ≡ int_div x.now.num (pos (gcd (unsigned_abs x.now.num) y.now.den)) }
    ensures den { result.1 ≡ pos (y.now.den / gcd (unsigned_abs x.now.num) y.now.den) }
    ensures within { IsWithin result.0 × IsWithin result.1 }
{
    reduced(x.num(), y.den())
}
