//! A fraction of 128 bits: a numerator and a denominator with no common divisor. Begin with `Frac::ratio`.
//! Contracts see the unlimited fraction that it stands for. Only `num`, `den`, `lowest` and the derived equality touch
//! the fields; all other code works on the two numbers.
ghost use Rattle.std.specs.Prelude.{◌≡◌, ◌≢◌, ◌<◌, ◌^◌, pos, ◌<ℤ◌, ◌≤ℤ◌, ◌↔◌, IsTrue, IfSome, unsigned_abs};
ghost use Rattle.algebra.specs.Gcd.{gcd};
ghost use Rattle.rational.specs.Fraction.{whole, quotient, neg_ℚ, inv_ℚ};
ghost use Rattle.frac128.specs.Bounds.{IsWithin};

use crate::integer::reduced;
use std::marker::Model;

/// A fraction in lowest terms: a denominator of at least 1, and both numbers of a magnitude of at most 2^127 - 1.
#[derive(Clone, Copy, PartialEq, Eq, Debug)]
pub struct Frac {
    num: i128,
    den: i128,
}

impl Model for Frac {
    ghost use Rattle.rational.specs.Fraction.{Fraction};
    ghost use Rattle.frac128.specs.Code.{fraction_code};

    ghost Value = { Fraction };

    ghost coded = { fraction_code };

    ghost use Rattle.frac128.specs.Fields.{view_of, IsReduced, fields_of, fields_of-view_of};

    ghost view = { view_of };

    ghost invariant = { IsReduced };

    ghost inverse = { fields_of };

    ghost inverse_ok = { fields_of-view_of };
}

impl Frac {
    /// The numerator, which has the fraction's sign.
    pub fn num(&self) -> i128
        ensures value { result ≡ self.now.num }
        ensures within { IsWithin result }
    {
        self.num
    }

    /// The denominator, at least 1.
    pub fn den(&self) -> i128
        ensures value { result ≡ pos self.now.den }
        ensures within { IsWithin result }
    {
        self.den
    }

    /// `None` for `i128::MIN`, whose negative is no `i128`.
    pub fn whole(n: i128) -> Option<Frac>
        ensures none { (result ≡ None) ↔ (n ≡ i128.MIN) }
        ensures value { IfSome result (λ x. x ≡ whole n) }
    {
        if n == i128::MIN {
            None
        } else {
            Some(whole_number(n))
        }
    }

    /// The quotient, in lowest terms.
    pub fn ratio(num: i128, den: i128) -> Frac
        requires positive { pos 1 ≤ℤ den }
        requires negatable { num ≢ i128.MIN }
        ensures { result ≡ quotient num (unsigned_abs den) }
    {
        let (num, den) = reduced(num, den);
        lowest(num, den)
    }

    /// The negative, which always fits.
    pub fn neg(&self) -> Frac
        ensures { result ≡ neg_ℚ self.now }
    {
        lowest(-self.num(), self.den())
    }

    pub(crate) fn inverse(&self) -> Frac
        requires { self.now.num ≢ pos 0 }
        ensures { result ≡ inv_ℚ self.now }
    {
        if self.num() < 0 {
            lowest(-self.den(), -self.num())
        } else {
            lowest(self.den(), self.num())
        }
    }

    /// Whether the denominator is 1.
    pub fn is_whole(&self) -> bool
        ensures { IsTrue result ↔ (self.now.den ≡ 1) }
    {
        self.den() == 1
    }
}

pub(crate) fn whole_number(n: i128) -> Frac
    requires { IsWithin n }
    ensures { result ≡ whole n }
{
    lowest(n, 1)
}

// The fraction with these numbers, which have no common divisor.
pub(crate) fn lowest(num: i128, den: i128) -> Frac
    requires positive { pos 0 <ℤ den }
    requires coprime { gcd (unsigned_abs num) (unsigned_abs den) ≡ 1 }
    requires negatable { IsWithin num }
    ensures { result ≡ quotient num (unsigned_abs den) }
{
    Frac { num, den }
}
