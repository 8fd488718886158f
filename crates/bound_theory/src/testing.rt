//! Tests of a guessed point. Begin with `all_hold`.
ghost use Rattle.std.specs.Prelude.{◌≡◌, ◌<◌, ℕ, length, slice_get, true, IfSome, MatchOption};
ghost use Rattle.rational.specs.Fraction.{◌<ℚ◌};
ghost use Rattle.formula.specs.declared.atom.Lit.{Lit};
ghost use Rattle.formula.specs.Meets.{AreWhole};
ghost use Rattle.theory_law.specs.Seen.{IsAsserted};
ghost use Rattle.theory_law.specs.Readings.{Reads};
ghost use Rattle.bound_theory.specs.Points.{IsFirstFraction, IsCutOff, IsNext, EventReads};

use crate::bound::{bound_of, is_at_most};
use formula::{Formula, Lit};
use frac128::Frac;
use std::cmp::Ordering;

fn is_below(x: &Frac, y: &Frac) -> bool
    ensures { result ≡ true → x.now <ℚ y.now }
{
    match x.cmp(y) {
        Ordering::Less => true,
        Ordering::Equal => false,
        Ordering::Greater => false,
    }
}

/// The next number, where it is one of 128 bits.
fn next(k: &Frac) -> Option<Frac>
    ensures { IfSome result (IsNext k.now) }
{
    match k.add(&Frac::ratio(1, 1)) {
        Ok(sum) => {
            let _num = sum.num();
            let _den = sum.den();
            Some(sum)
        }
        Err(_) => None,
    }
}

/// Whether the literal is of a bound whose reading holds at the values.
fn holds(formula: &Formula, lit: Lit, values: &[Frac]) -> bool
    ensures { result ≡ true → Reads formula.now.counts formula.now.atoms values.now lit }
{
    let Some(bound) = bound_of(formula, lit) else {
        return false;
    };
    let var = bound.var as usize;
    if var >= values.len() {
        return false;
    }
    if lit.pos {
        return is_at_most(&values[var], &bound.most);
    }
    match next(&bound.most) {
        Some(least) => is_at_most(&least, &values[var]),
        None => false,
    }
}

fn event_holds(formula: &Formula, event: &Option<Lit>, values: &[Frac]) -> bool
    ensures { result ≡ true → EventReads formula.now.counts formula.now.atoms values.now event.now }
{
    match event {
        Some(lit) => holds(formula, *lit, values),
        None => true,
    }
}

/// Whether all asserted readings hold at the values.
pub(crate) fn all_hold(formula: &Formula, events: &[Option<Lit>], values: &[Frac]) -> bool
    ensures { result ≡ true → (l : Lit) → IsAsserted events.now l → Reads formula.now.counts formula.now.atoms values.now l }
{
    for event in events {
        if !event_holds(formula, event, values) {
            return false;
        }
    }
    true
}

/// The first count that isn't whole.
pub(crate) fn first_fraction(formula: &Formula, values: &[Frac]) -> Option<u64>
    requires { length values.now ≡ length formula.now.counts }
    ensures { MatchOption result (AreWhole formula.now.counts values.now) (IsFirstFraction formula.now.counts values.now) }
{
    for var in 0..formula.vars() {
        if formula.is_count(var) && !values[var as usize].is_whole() {
            return Some(var);
        }
    }
    None
}

/// The whole number below a value that isn't whole, where it and the next one are of 128 bits.
pub(crate) fn cut_below(x: &Frac) -> Option<Frac>
    ensures { IfSome result (IsCutOff x.now) }
{
    let k = Frac::whole(x.floor())?;
    let above = next(&k)?;
    (is_below(&k, x) && is_below(x, &above)).then_some(k)
}
