//! Bounds of counts, which are whole numbers. Begin with `rounded`.
ghost use Rattle.std.specs.Prelude.{◌≡◌, true, false};
ghost use Rattle.rational.specs.Fraction.{whole};
ghost use Rattle.rational.specs.Floor.{floor_of, ceil_of};
ghost use Rattle.encode_rows.specs.Bounds.{RoundingAnswers, SuccessorAnswers, PredecessorAnswers};

use frac128::{Frac, Wide};

/// The greatest whole number that isn't above the bound, or where `down` is false the greatest that is below it. One more is
/// in range too.
pub fn rounded(b: &Frac, down: bool) -> Result<Frac, Wide>
    ensures { RoundingAnswers down b.now result }
{
    if down { rounded_down(b) } else { rounded_up(b) }
}

fn rounded_down(b: &Frac) -> Result<Frac, Wide>
    ensures { RoundingAnswers true b.now result }
{
    let k = floor(b);
    let _next = successor(&k)?;
    Ok(k)
}

fn rounded_up(b: &Frac) -> Result<Frac, Wide>
    ensures { RoundingAnswers false b.now result }
{
    let k = predecessor(&ceiling(b))?;
    let _next = successor(&k)?;
    Ok(k)
}

fn successor(k: &Frac) -> Result<Frac, Wide>
    ensures { SuccessorAnswers k.now result }
{
    let next = k.add(&Frac::ratio(1, 1))?;
    let _parts = (next.num(), next.den());
    Ok(next)
}

fn predecessor(k: &Frac) -> Result<Frac, Wide>
    ensures { PredecessorAnswers k.now result }
{
    k.sub(&Frac::ratio(1, 1))
}

// It is no larger than the numerator, and so in range.
fn floor(b: &Frac) -> Frac
    ensures { result ≡ whole (floor_of b.now) }
{
    let _numerator = b.num();
    match Frac::whole(b.floor()) {
        Some(k) => k,
        None => unreachable!(),
    }
}

fn ceiling(b: &Frac) -> Frac
    ensures { result ≡ whole (ceil_of b.now) }
{
    floor(&b.neg()).neg()
}
