//! A bound of a variable, and the tests of a value against it.
ghost use Rattle.std.specs.Prelude.{◌≡◌, ◌↔◌, IsTrue};
ghost use Rattle.simplex_law.specs.Bounds as bounds;

use crate::number::{minus_one, one, zero};
use crate::pair::Pair;
use frac128::Frac;

/// `value <= x` or `value < x` for a lower one, and the other way for an upper one.
#[derive(Clone, Copy, PartialEq, Eq, Debug)]
pub struct Bound {
    pub value: Frac,
    pub strict: bool,
}

/// Which bound a value violates: it is under its lower one, or over its upper one.
#[derive(Clone, Copy, PartialEq, Eq, Debug)]
pub enum Side {
    Under,
    Over,
}

impl Bound {
    /// As a lower bound: a little above its value where it is strict.
    pub fn lower_pair(&self) -> Pair
        ensures { result ≡ bounds.lower_pair self.now }
    {
        Pair {
            main: self.value,
            small: if self.strict { one() } else { zero() },
        }
    }

    /// As an upper bound: a little below its value where it is strict.
    pub fn upper_pair(&self) -> Pair
        ensures { result ≡ bounds.upper_pair self.now }
    {
        Pair {
            main: self.value,
            small: if self.strict { minus_one() } else { zero() },
        }
    }
}

/// Whether the value is below a lower bound.
pub fn is_under(lower: &Option<Bound>, x: &Pair) -> bool
    ensures { IsTrue result ↔ bounds.BelowLower lower.now x.now }
{
    match lower {
        None => false,
        Some(b) => x.is_below(&b.lower_pair()),
    }
}

/// Whether the value is above an upper bound.
pub fn is_over(upper: &Option<Bound>, x: &Pair) -> bool
    ensures { IsTrue result ↔ bounds.AboveUpper upper.now x.now }
{
    match upper {
        None => false,
        Some(b) => b.upper_pair().is_below(x),
    }
}

/// Whether an upper bound lets the value rise.
pub fn can_rise(upper: &Option<Bound>, x: &Pair) -> bool
    ensures { IsTrue result ↔ bounds.CanRise upper.now x.now }
{
    match upper {
        None => true,
        Some(b) => x.is_below(&b.upper_pair()),
    }
}

/// Whether a lower bound lets the value fall.
pub fn can_fall(lower: &Option<Bound>, x: &Pair) -> bool
    ensures { IsTrue result ↔ bounds.CanFall lower.now x.now }
{
    match lower {
        None => true,
        Some(b) => b.lower_pair().is_below(x),
    }
}
