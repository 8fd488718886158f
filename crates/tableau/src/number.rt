//! The numbers 0 and 1, the test for 0, and the operations in the shut words of this crate.
ghost use Rattle.std.specs.Prelude.{◌≡◌, ◌≢◌, ◌↔◌, pos, IsTrue};
ghost use Rattle.rational.specs.Fraction.{whole};
ghost use Rattle.lin.specs.Operations.{adding, multiplying, dividing};
ghost use Rattle.tableau.specs.Named.{Gives};

use frac128::{Frac, Wide};

pub(crate) fn zero() -> Frac
    ensures { result ≡ whole (pos 0) }
{
    match Frac::whole(0) {
        Some(x) => x,
        None => unreachable!(),
    }
}

pub(crate) fn one() -> Frac
    ensures { result ≡ whole (pos 1) }
{
    match Frac::whole(1) {
        Some(x) => x,
        None => unreachable!(),
    }
}

pub(crate) fn is_zero(x: &Frac) -> bool
    ensures { IsTrue result ↔ (x.now ≡ whole (pos 0)) }
{
    x.num() == 0
}

pub(crate) fn add(x: &Frac, y: &Frac) -> Result<Frac, Wide>
    ensures { Gives (adding x.now y.now) result }
{
    x.add(y)
}

pub(crate) fn mul(x: &Frac, y: &Frac) -> Result<Frac, Wide>
    ensures { Gives (multiplying x.now y.now) result }
{
    x.mul(y)
}

pub(crate) fn div(x: &Frac, y: &Frac) -> Result<Frac, Wide>
    requires { y.now ≢ whole (pos 0) }
    ensures { Gives (dividing x.now y.now) result }
{
    x.div(y)
}
