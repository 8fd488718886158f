//! Does a clause follow by Farkas' lemma? Begin with `Formula::farkas`: the signs of all coefficients are looked at first; then
//! the multiples of the readings of the negated literals are made and added in order.
ghost use Rattle.std.specs.Prelude.{◌≡◌, ◌||◌, ◌&&◌, length, All};
ghost use Rattle.std.specs.List.{list_any};
ghost use Rattle.rational.specs.Fraction.{◌+ℚ◌, ◌*ℚ◌};
ghost use Rattle.lin.specs.Linear.{add, scale};
ghost use Rattle.lin.specs.Operations.{AnswersInMemory};
ghost use Rattle.formula.specs.Reading.{IsOfAtom};
ghost use Rattle.formula.specs.Farkas.{FarkasAnswers, multiple_ops, is_negative, is_positive};
ghost use Rattle.formula.specs.inside.Sums.{refutes};

use crate::atom::{Constraint, Lit};
use crate::formula::Formula;
use frac128::Frac;
use lin::{Lin, LinFail};

impl Formula {
    /// Whether no coefficient is negative and the multiples of the readings of the negated literals add up to no variable and
    /// either a bound below 0, or the bound 0 with a strict reading whose coefficient is above 0.
    pub fn farkas(&self, lits: &[Lit], coefs: &[Frac]) -> Result<bool, LinFail>
        requires many { length coefs.now ≡ length lits.now }
        requires atoms { All (IsOfAtom self.now) lits.now }
        ensures { FarkasAnswers self.now lits.now coefs.now result }
    {
        if has_negative(coefs) {
            return Ok(false);
        }
        let zero = Frac::ratio(0, 1);
        let mut sum = (Lin::fixed(self.alloc(), zero), zero);
        let mut strict = false;
        for (i, l) in lits.iter().enumerate() {
            let reading = self.reading(&l.opposite())?;
            let by = &coefs[i];
            sum = add_multiple(&sum.0, &sum.1, &reading, by)?;
            strict = or_strictly(strict, &reading, by);
        }
        Ok(is_refuted(&sum.0, &sum.1, strict))
    }
}

fn has_negative(coefs: &[Frac]) -> bool
    ensures { result ≡ list_any is_negative coefs.now }
{
    for c in coefs {
        if is_negative(c) {
            return true;
        }
    }
    false
}

fn is_negative(x: &Frac) -> bool
    ensures { result ≡ is_negative x.now }
{
    x.num() < 0
}

fn is_positive(x: &Frac) -> bool
    ensures { result ≡ is_positive x.now }
{
    x.num() > 0
}

// Whether a strict constraint has a part in the sum: so far, or by this multiple.
fn or_strictly(strict: bool, more: &Constraint, by: &Frac) -> bool
    ensures { result ≡ (strict || (more.now.strict && is_positive by.now)) }
{
    strict || more.strict && is_positive(by)
}

// What is so far, and one more multiple of a constraint.
fn add_multiple(
    sum: &Lin,
    bound: &Frac,
    more: &Constraint,
    by: &Frac,
) -> Result<(Lin, Frac), LinFail>
    ensures { AnswersInMemory (multiple_ops sum.now bound.now (more.now, by.now)) (add sum.now (scale by.now more.now.lin), bound.now +ℚ by.now *ℚ more.now.bound) result }
{
    let part = more.lin.scale(by)?;
    let left = sum.add(&part)?;
    let product = by.mul(&more.bound)?;
    let right = bound.add(&product)?;
    Ok((left, right))
}

// Whether `sum <= bound`, or `sum < bound` where it is strict, has no variable and fails.
fn is_refuted(sum: &Lin, bound: &Frac, strict: bool) -> bool
    ensures { result ≡ refutes sum.now.terms bound.now strict }
{
    sum.terms() == 0 && (is_negative(bound) || bound.num() == 0 && strict)
}
