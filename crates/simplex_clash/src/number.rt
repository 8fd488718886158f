//! The number 1, and the signs of a fraction.
ghost use Rattle.std.specs.Prelude.{◌≡◌, pos};
ghost use Rattle.rational.specs.Fraction.{whole};
ghost use Rattle.formula.specs.Farkas.{is_negative, is_positive};

use frac128::Frac;

pub(crate) fn one() -> Frac
    ensures { result ≡ whole (pos 1) }
{
    match Frac::whole(1) {
        Some(x) => x,
        None => unreachable!(),
    }
}

pub(crate) fn is_negative(x: &Frac) -> bool
    ensures { result ≡ is_negative x.now }
{
    x.num() < 0
}

pub(crate) fn is_positive(x: &Frac) -> bool
    ensures { result ≡ is_positive x.now }
{
    x.num() > 0
}
