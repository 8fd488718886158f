//! The number 0, the test for it, and a sum and a product in the shut words of `tableau`.
ghost use Rattle.std.specs.Prelude.{◌≡◌, ◌↔◌, pos, IsTrue};
ghost use Rattle.rational.specs.Fraction.{whole};
ghost use Rattle.lin.specs.Operations.{adding, multiplying};
ghost use Rattle.tableau.specs.Named.{Gives};

use frac128::{Frac, Wide};

pub(crate) fn zero() -> Frac
    ensures { result ≡ whole (pos 0) }
{
    match Frac::whole(0) {
        Some(x) => x,
        None => unreachable!(),
    }
}

pub(crate) fn is_zero(x: &Frac) -> bool
    ensures { IsTrue result ↔ (x.now ≡ whole (pos 0)) }
{
    x.num() == 0
}

pub(crate) fn add(x: &Frac, y: &Frac) -> Result<Frac, Wide>
    ensures { Gives (adding x.now y.now) result }
{
    x.add(y)
}

pub(crate) fn mul(x: &Frac, y: &Frac) -> Result<Frac, Wide>
    ensures { Gives (multiplying x.now y.now) result }
{
    x.mul(y)
}
