//! The literal of a comparison with 0: a bound on the expression. Begin with `bound_of`.
ghost use Rattle.std.specs.Prelude.{◌≡◌, ◌≢◌, ◌++◌, length, pos, not, if◌then◌else◌};
ghost use Rattle.rational.specs.Fraction.{inv_ℚ};
ghost use Rattle.lin.specs.Linear.{AreBelow, add, scale};
ghost use Rattle.lin.specs.Operations.{AnswersInMemory};
ghost use Rattle.lin.specs.Made.{add_ops, div_ops};
ghost use Rattle.formula.specs.Atoms.{is_one_count};
ghost use Rattle.encode_laws.specs.Numbering.{is_positive};
ghost use Rattle.encode_rows.specs.Bounds.{plain_of, compares, constant_compared, rounds_down, CountAnswers, LinearAnswers, BoundAnswers};

use crate::rounding::rounded;
use formula::{Atom, Formula};
use frac128::Frac;
use lin::{Lin, LinFail};
use std::alloc::Global;
use std::cmp::Ordering;

/// Always true, always false, or an atom, or where the flag is false its negation.
#[derive(Debug, Drop)]
pub enum Bound {
    Always,
    Never,
    Of(bool, Atom),
}

/// The literal of `l < 0` where it is strict, and else of `l <= 0`.
pub fn bound_of(alloc: Global, formula: &Formula, l: &Lin, strict: bool) -> Result<Bound, LinFail>
    requires { AreBelow (length formula.now.counts) l.now.terms }
    ensures { BoundAnswers formula.now.counts strict l.now result }
{
    if l.terms() == 0 {
        return Ok(constant(&l.constant(), strict));
    }
    let (first, a) = l.term(0);
    if is_one_count(formula, l) {
        of_count(alloc, first, &a, &l.constant(), strict)
    } else {
        of_linear(alloc, l, &a, strict)
    }
}

fn is_one_count(formula: &Formula, l: &Lin) -> bool
    requires { AreBelow (length formula.now.counts) l.now.terms }
    ensures { result ≡ is_one_count formula.now.counts l.now.terms }
{
    l.terms() == 1 && formula.is_count(l.term(0).0)
}

fn constant(k: &Frac, strict: bool) -> Bound
    ensures { plain_of result ≡ constant_compared strict k.now }
{
    if compares(k, strict) {
        Bound::Always
    } else {
        Bound::Never
    }
}

fn compares(k: &Frac, strict: bool) -> bool
    ensures { result ≡ compares strict k.now }
{
    match k.cmp(&Frac::ratio(0, 1)) {
        Ordering::Less => true,
        Ordering::Equal => !strict,
        Ordering::Greater => false,
    }
}

// Of `a * c + k`, where c is a count.
fn of_count(alloc: Global, c: u64, a: &Frac, k: &Frac, strict: bool) -> Result<Bound, LinFail>
    requires { a.now.num ≢ pos 0 }
    ensures { CountAnswers c a.now k.now strict result }
{
    let quotient = k.neg().div(a)?;
    let bound = rounded(&quotient, rounds_down(strict, a))?;
    let lin = Lin::var(alloc, c)?;
    Ok(Bound::Of(
        is_positive(a),
        Atom {
            lin,
            strict: false,
            bound,
        },
    ))
}

// Of any other expression, whose first coefficient is given.
fn of_linear(alloc: Global, l: &Lin, a: &Frac, strict: bool) -> Result<Bound, LinFail>
    requires { a.now.num ≢ pos 0 }
    ensures { LinearAnswers a.now l.now strict result }
{
    let k = l.constant().neg();
    let lin = sum_over(l, &Lin::fixed(alloc, k), a)?;
    let bound = k.div(a)?;
    Ok(Bound::Of(
        is_positive(a),
        Atom {
            lin,
            strict: is_strict(strict, a),
            bound,
        },
    ))
}

// The sum, divided by `a`.
fn sum_over(l: &Lin, more: &Lin, a: &Frac) -> Result<Lin, LinFail>
    requires { a.now.num ≢ pos 0 }
    ensures { AnswersInMemory (add_ops l.now more.now ++ div_ops a.now (add l.now more.now)) (scale (inv_ℚ a.now) (add l.now more.now)) result }
{
    let sum = l.add(more)?;
    sum.div(a)
}

fn rounds_down(strict: bool, a: &Frac) -> bool
    ensures { result ≡ rounds_down strict a.now }
{
    if strict {
        !is_positive(a)
    } else {
        is_positive(a)
    }
}

fn is_strict(strict: bool, a: &Frac) -> bool
    ensures { result ≡ (if strict then is_positive a.now else not (is_positive a.now)) }
{
    if strict {
        is_positive(a)
    } else {
        !is_positive(a)
    }
}

fn is_positive(x: &Frac) -> bool
    ensures { result ≡ is_positive x.now }
{
    x.num() > 0
}
