//! Bland's rule: the least basic variable that violates a bound, and the least non-basic one that helps it.
ghost use Rattle.std.specs.Prelude.{◌≡◌, ◌<◌, ◌↔◌, IsTrue, pos, length};
ghost use Rattle.rational.specs.Fraction.{whole, ◌<ℚ◌};
ghost use Rattle.tableau.specs.Table.{width, is_basic, IsTidy};
ghost use Rattle.simplex_law.specs.Config.{pair_at, HelpsBy};
ghost use Rattle.simplex_check.specs.Checks.{limits};
ghost use Rattle.simplex_check.specs.Known.{IsKnown};
ghost use Rattle.simplex_check.specs.inside.Choices.{SideAnswers, SideAtAnswers, ViolatedAnswers, EnteringAnswers};

use crate::number::zero;
use crate::value::value;
use frac128::{Frac, Wide};
use simplex_law::{Bound, Pair, Side, can_fall, can_rise, is_over, is_under};
use std::cmp::Ordering;
use tableau::Tableau;

fn is_positive(x: &Frac) -> bool
    ensures { IsTrue result ↔ (whole (pos 0) <ℚ x.now) }
{
    match zero().cmp(x) {
        Ordering::Less => true,
        Ordering::Equal => false,
        Ordering::Greater => false,
    }
}

fn is_negative(x: &Frac) -> bool
    ensures { IsTrue result ↔ (x.now <ℚ whole (pos 0)) }
{
    match x.cmp(&zero()) {
        Ordering::Less => true,
        Ordering::Equal => false,
        Ordering::Greater => false,
    }
}

// Whether a variable with this cell helps a row that is under its lower bound, or over its upper one.
fn helps(side: Side, c: &Frac, lower: &Option<Bound>, upper: &Option<Bound>, x: &Pair) -> bool
    ensures { IsTrue result ↔ HelpsBy side c.now lower.now upper.now x.now }
{
    let (rises, falls) = match side {
        Side::Under => (is_positive(c), is_negative(c)),
        Side::Over => (is_negative(c), is_positive(c)),
    };
    rises && can_rise(upper, x) || falls && can_fall(lower, x)
}

fn side_of(lower: &Option<Bound>, upper: &Option<Bound>, x: &Pair) -> Option<Side>
    ensures { SideAnswers lower.now upper.now x.now result }
{
    if is_under(lower, x) {
        return Some(Side::Under);
    }
    if is_over(upper, x) {
        return Some(Side::Over);
    }
    None
}

// Which bound of i its value violates, where it is basic.
fn side_at(
    t: &Tableau,
    lower: &[Option<Bound>],
    upper: &[Option<Bound>],
    place: &[Pair],
    known: &mut [Option<Pair>],
    i: u64,
) -> Result<Option<Side>, Wide>
    requires row { i < width t.now }
    requires lower { length lower.now ≡ width t.now }
    requires upper { length upper.now ≡ width t.now }
    requires places { length place.now ≡ width t.now }
    requires many { length known.old ≡ width t.now }
    requires known { IsKnown t.now (pair_at place.now) known.old }
    ensures known { IsKnown t.now (pair_at place.now) known.new }
    ensures answers { SideAtAnswers (limits lower.now upper.now) t.now (pair_at place.now) i result }
{
    if !t.is_basic(i) {
        return Ok(None);
    }
    let x = value(t, place, known, i)?;
    Ok(side_of(&lower[i as usize], &upper[i as usize], &x))
}

/// The least basic variable whose value is beyond a bound.
pub(crate) fn violated(
    t: &Tableau,
    lower: &[Option<Bound>],
    upper: &[Option<Bound>],
    place: &[Pair],
    known: &mut [Option<Pair>],
) -> Result<Option<(u64, Side)>, Wide>
    requires lower { length lower.now ≡ width t.now }
    requires upper { length upper.now ≡ width t.now }
    requires places { length place.now ≡ width t.now }
    requires many { length known.old ≡ width t.now }
    requires known { IsKnown t.now (pair_at place.now) known.old }
    ensures tidy { IsTidy t.now }
    ensures known { IsKnown t.now (pair_at place.now) known.new }
    ensures answers { ViolatedAnswers (limits lower.now upper.now) t.now (pair_at place.now) result }
{
    for i in 0..t.width() {
        if let Some(side) = side_at(t, lower, upper, place, known, i)? {
            return Ok(Some((i, side)));
        }
    }
    Ok(None)
}

/// The least non-basic variable that helps r.
pub(crate) fn entering(
    t: &Tableau,
    lower: &[Option<Bound>],
    upper: &[Option<Bound>],
    place: &[Pair],
    r: u64,
    side: Side,
) -> Option<u64>
    requires lower { length lower.now ≡ width t.now }
    requires upper { length upper.now ≡ width t.now }
    requires places { length place.now ≡ width t.now }
    requires row { r < width t.now }
    requires basic { IsTrue (is_basic t.now r) }
    ensures { EnteringAnswers (limits lower.now upper.now) t.now (pair_at place.now) r side result }
{
    for j in 0..t.width() {
        if !t.is_basic(j) {
            let x = place[j as usize];
            let (low, high) = (lower[j as usize], upper[j as usize]);
            if helps(side, &t.cell(r, j), &low, &high, &x) {
                return Some(j);
            }
        }
    }
    None
}
