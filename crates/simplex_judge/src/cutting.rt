//! The first count that isn't whole at a point, and where it is cut. Begin with `verdict_at`.
ghost use Rattle.std.specs.Prelude.{◌≡◌, length, true, IfSome, MatchOption};
ghost use Rattle.rational.specs.Fraction.{◌<ℚ◌};
ghost use Rattle.formula.specs.Meets.{AreWhole};
ghost use Rattle.simplex_judge.specs.inside.Cuts.{IsFirstFraction, IsNext, IsCutOff, WholeOrCut};

use formula::Formula;
use frac128::Frac;
use std::cmp::Ordering;
use theory_law::{Coefs, Verdict};

fn is_below(x: &Frac, y: &Frac) -> bool
    ensures { result ≡ true → x.now <ℚ y.now }
{
    match x.cmp(y) {
        Ordering::Less => true,
        Ordering::Equal => false,
        Ordering::Greater => false,
    }
}

// The next number, where it is one of 128 bits.
fn next(k: &Frac) -> Option<Frac>
    ensures { IfSome result (IsNext k.now) }
{
    match k.add(&Frac::ratio(1, 1)) {
        Ok(sum) => {
            let _num = sum.num();
            let _den = sum.den();
            Some(sum)
        }
        Err(_) => None,
    }
}

// The first count that isn't whole.
fn first_fraction(formula: &Formula, values: &[Frac]) -> Option<u64>
    requires { length values.now ≡ length formula.now.counts }
    ensures { MatchOption result (AreWhole formula.now.counts values.now) (IsFirstFraction formula.now.counts values.now) }
{
    for var in 0..formula.vars() {
        if formula.is_count(var) && !values[var as usize].is_whole() {
            return Some(var);
        }
    }
    None
}

// The whole number below a value that isn't whole, where it and the next one are of 128 bits.
fn cut_below(x: &Frac) -> Option<Frac>
    ensures { IfSome result (IsCutOff x.now) }
{
    let k = Frac::whole(x.floor())?;
    let above = next(&k)?;
    (is_below(&k, x) && is_below(x, &above)).then_some(k)
}

/// That the values fit, or the cut of the first count that isn't whole.
pub fn verdict_at(formula: &Formula, values: &[Frac]) -> Option<Verdict<Coefs>>
    requires { length values.now ≡ length formula.now.counts }
    ensures { IfSome result (WholeOrCut formula.now.counts values.now) }
{
    let Some(var) = first_fraction(formula, values) else {
        return Some(Verdict::Fits);
    };
    let k = cut_below(&values[var as usize])?;
    Some(Verdict::Cut { var, k })
}
