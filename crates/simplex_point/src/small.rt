//! The infinitesimal: the least of 1 and of the quotients at which a value would come to a bound. Begin with `infinitesimal`.
ghost use Rattle.std.specs.Prelude.{◌≡◌, length};
ghost use Rattle.simplex_law.specs.Config.{pair_at};
ghost use Rattle.simplex_check.specs.Checks.{limits};
ghost use Rattle.simplex_point.specs.Point.{InfinitesimalAnswers, AtSmallAnswers};
ghost use Rattle.simplex_point.specs.inside.Narrowing.{QuotientAnswers, NarrowedAnswers, LowerAnswers, UpperAnswers};

use crate::number::{add, div, is_below, mul, one, sub};
use frac128::{Frac, Wide};
use simplex_law::{Bound, Pair};

// Where x, which is to be at most y, comes to y.
fn quotient(x: &Pair, y: &Pair) -> Result<Option<Frac>, Wide>
    ensures { QuotientAnswers x.now y.now result }
{
    if !is_below(&x.main, &y.main) {
        return Ok(None);
    }
    if !is_below(&y.small, &x.small) {
        return Ok(None);
    }
    let way = sub(&y.main, &x.main)?;
    let gap = sub(&x.small, &y.small)?;
    Ok(Some(div(&way, &gap)?))
}

fn narrowed(d: &Frac, x: &Pair, y: &Pair) -> Result<Frac, Wide>
    ensures { NarrowedAnswers d.now x.now y.now result }
{
    match quotient(x, y)? {
        None => Ok(*d),
        Some(q) => {
            if is_below(&q, d) {
                return Ok(q);
            }
            Ok(*d)
        }
    }
}

fn under_lower(d: &Frac, lower: &Option<Bound>, x: &Pair) -> Result<Frac, Wide>
    ensures { LowerAnswers d.now lower.now x.now result }
{
    match lower {
        None => Ok(*d),
        Some(b) => narrowed(d, &b.lower_pair(), x),
    }
}

fn under_upper(d: &Frac, upper: &Option<Bound>, x: &Pair) -> Result<Frac, Wide>
    ensures { UpperAnswers d.now upper.now x.now result }
{
    match upper {
        None => Ok(*d),
        Some(b) => narrowed(d, x, &b.upper_pair()),
    }
}

/// The least of 1 and of the quotients of all variables, from their values.
pub fn infinitesimal(
    lower: &[Option<Bound>],
    upper: &[Option<Bound>],
    values: &[Pair],
) -> Result<Frac, Wide>
    requires lower { length lower.now ≡ length values.now }
    requires upper { length upper.now ≡ length values.now }
    ensures { InfinitesimalAnswers (limits lower.now upper.now) (pair_at values.now) (length values.now) result }
{
    let mut d = one();
    for i in 0..values.len() {
        let below = under_lower(&d, &lower[i], &values[i])?;
        d = under_upper(&below, &upper[i], &values[i])?;
    }
    Ok(d)
}

/// The value where the infinitesimal is d.
pub fn at_small(x: &Pair, d: &Frac) -> Result<Frac, Wide>
    ensures { AtSmallAnswers x.now d.now result }
{
    add(&x.main, &mul(&x.small, d)?)
}
