//! The number 1, the order, and the operations in the shut words of `tableau`.
ghost use Rattle.std.specs.Prelude.{◌≡◌, ◌≢◌, ◌↔◌, pos, IsTrue};
ghost use Rattle.rational.specs.Fraction.{whole, ◌<ℚ◌};
ghost use Rattle.lin.specs.Operations.{adding, multiplying, dividing};
ghost use Rattle.tableau.specs.Named.{Gives};
ghost use Rattle.simplex_point.specs.Point.{subtracting};

use frac128::{Frac, Wide};
use std::cmp::Ordering;

pub(crate) fn one() -> Frac
    ensures { result ≡ whole (pos 1) }
{
    match Frac::whole(1) {
        Some(x) => x,
        None => unreachable!(),
    }
}

pub(crate) fn is_below(x: &Frac, y: &Frac) -> bool
    ensures { IsTrue result ↔ (x.now <ℚ y.now) }
{
    match x.cmp(y) {
        Ordering::Less => true,
        Ordering::Equal => false,
        Ordering::Greater => false,
    }
}

pub(crate) fn add(x: &Frac, y: &Frac) -> Result<Frac, Wide>
    ensures { Gives (adding x.now y.now) result }
{
    x.add(y)
}

pub(crate) fn sub(x: &Frac, y: &Frac) -> Result<Frac, Wide>
    ensures { Gives (subtracting x.now y.now) result }
{
    x.sub(y)
}

pub(crate) fn mul(x: &Frac, y: &Frac) -> Result<Frac, Wide>
    ensures { Gives (multiplying x.now y.now) result }
{
    x.mul(y)
}

pub(crate) fn div(x: &Frac, y: &Frac) -> Result<Frac, Wide>
    requires { y.now ≢ whole (pos 0) }
    ensures { Gives (dividing x.now y.now) result }
{
    x.div(y)
}
