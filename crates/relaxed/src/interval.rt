//! Intervals of fractions, whose ends may be infinite. Begin with `hull`, the least interval that has two.
ghost use Rattle.std.specs.Prelude.{◌≡◌, pos};
ghost use Rattle.relaxed.specs.Interval.{is_at_most, is_below, lower, higher, hull, point};
ghost use Rattle.rational.specs.Fraction.{whole};

use frac128::Frac;
use std::cmp::Ordering;

/// An end of an interval. An infinite lower end is minus infinite.
#[derive(Clone, Copy, PartialEq, Eq, Debug)]
pub enum End {
    At(Frac),
    Infinite,
}

/// What a function may be: from one end to the other, both included.
#[derive(Clone, Copy, PartialEq, Eq, Debug)]
pub struct Interval {
    pub low: End,
    pub high: End,
}

pub(crate) fn is_at_most(x: &Frac, y: &Frac) -> bool
    ensures { result ≡ is_at_most x.now y.now }
{
    match x.cmp(y) {
        Ordering::Less => true,
        Ordering::Equal => true,
        Ordering::Greater => false,
    }
}

pub(crate) fn is_below(x: &Frac, y: &Frac) -> bool
    ensures { result ≡ is_below x.now y.now }
{
    match x.cmp(y) {
        Ordering::Less => true,
        Ordering::Equal => false,
        Ordering::Greater => false,
    }
}

pub(crate) fn zero() -> Frac
    ensures { result ≡ whole (pos 0) }
{
    Frac::ratio(0, 1)
}

/// One fraction alone.
pub(crate) fn point(x: Frac) -> Interval
    ensures { result ≡ point x }
{
    Interval {
        low: End::At(x),
        high: End::At(x),
    }
}

fn lower(a: End, b: End) -> End
    ensures { result ≡ lower a b }
{
    match a {
        End::Infinite => End::Infinite,
        End::At(x) => match b {
            End::Infinite => End::Infinite,
            End::At(y) => End::At(if is_at_most(&x, &y) { x } else { y }),
        },
    }
}

fn higher(a: End, b: End) -> End
    ensures { result ≡ higher a b }
{
    match a {
        End::Infinite => End::Infinite,
        End::At(x) => match b {
            End::Infinite => End::Infinite,
            End::At(y) => End::At(if is_at_most(&x, &y) { y } else { x }),
        },
    }
}

/// The least interval that has both.
pub(crate) fn hull(i: Option<Interval>, j: Option<Interval>) -> Option<Interval>
    ensures { result ≡ hull i j }
{
    match i {
        None => j,
        Some(i) => match j {
            None => Some(i),
            Some(j) => Some(Interval {
                low: lower(i.low, j.low),
                high: higher(i.high, j.high),
            }),
        },
    }
}
