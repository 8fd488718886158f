//! The numbers 0, 1 and -1.
ghost use Rattle.std.specs.Prelude.{◌≡◌, pos, negsuc};
ghost use Rattle.rational.specs.Fraction.{whole};

use frac128::Frac;

pub(crate) fn zero() -> Frac
    ensures { result ≡ whole (pos 0) }
{
    match Frac::whole(0) {
        Some(x) => x,
        None => unreachable!(),
    }
}

pub(crate) fn one() -> Frac
    ensures { result ≡ whole (pos 1) }
{
    match Frac::whole(1) {
        Some(x) => x,
        None => unreachable!(),
    }
}

pub(crate) fn minus_one() -> Frac
    ensures { result ≡ whole (negsuc 0) }
{
    match Frac::whole(-1) {
        Some(x) => x,
        None => unreachable!(),
    }
}
