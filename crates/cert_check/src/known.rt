//! Does a step name what is there? The first test of the judge, and the comparisons of a split's point.
ghost use Rattle.std.specs.Prelude.{◌≡◌, ◌<◌, ◌↔◌, length, slice_get, Some, true, IsTrue, All, pos, ◌+ℤ◌};
ghost use Rattle.rational.specs.Fraction.{whole, ◌+ℚ◌, ◌<ℚ◌};
ghost use Rattle.rational.specs.Floor.{IsWhole};
ghost use Rattle.frac128.specs.Bounds.{IsFrac, IsWithin};
ghost use Rattle.formula.specs.Contents.{is_clause};
ghost use Rattle.formula.specs.Reading.{IsOfAtom};
ghost use Rattle.theory_law.specs.Readings.{IsExact};
ghost use Rattle.theory_law.specs.Splits.{CanSplit};
ghost use Rattle.theory_law.specs.Verdicts.{IsBetween};

use formula::{Formula, Lit, Point};
use frac128::Frac;
use std::cmp::Ordering;

/// Whether the Booleans rise and are below this number.
pub(crate) fn is_clause(booleans: u64, lits: &[Lit]) -> bool
    ensures { result ≡ is_clause booleans lits.now }
{
    let mut least = 0;
    for lit in lits {
        if lit.boolean < least || lit.boolean >= booleans {
            return false;
        }
        least = lit.boolean + 1;
    }
    true
}

fn is_of_atom(formula: &Formula, lit: &Lit) -> bool
    ensures { IsTrue result ↔ IsOfAtom formula.now lit.now }
{
    lit.boolean < formula.booleans() && formula.atom(lit.boolean).is_some()
}

/// Whether no literal is of a truth variable.
pub(crate) fn are_of_atoms(formula: &Formula, lits: &[Lit]) -> bool
    ensures { IsTrue result ↔ All (IsOfAtom formula.now) lits.now }
{
    lits.iter().all(|l| is_of_atom(formula, l))
}

/// Whether each hint is the number of a clause.
pub(crate) fn are_numbers(hints: &[u64], clauses: usize) -> bool
    ensures { IsTrue result ↔ All (λ h. h < clauses) hints.now }
{
    hints.iter().all(|h| *h < clauses as u64)
}

/// Whether `k + 1` is a fraction of 128 bits too.
fn has_next(k: &Frac) -> bool
    requires { IsWhole k.now }
    ensures { IsTrue result ↔ IsFrac (k.now +ℚ whole (pos 1)) }
{
    k.num() < i128::MAX
}

fn is_count(formula: &Formula, var: u64) -> bool
    ensures { IsTrue result ↔ (slice_get formula.now.counts var ≡ Some true) }
{
    var < formula.vars() && formula.is_count(var)
}

/// Whether the variable is a count, and k and `k + 1` are whole.
pub(crate) fn can_split(formula: &Formula, var: u64, k: &Frac) -> bool
    ensures { IsTrue result ↔ CanSplit formula.now.counts var k.now }
{
    is_count(formula, var) && k.is_whole() && has_next(k)
}

/// Whether the point has a value for each variable and a truth for each Boolean, and no more.
pub(crate) fn is_exact(formula: &Formula, point: &Point) -> bool
    ensures { IsTrue result ↔ IsExact formula.now point.now }
{
    point.values.len() as u64 == formula.vars() && point.truth.len() as u64 == formula.booleans()
}

/// `k + 1`.
fn next(k: &Frac) -> Frac
    requires whole { IsWhole k.now }
    requires next { IsFrac (k.now +ℚ whole (pos 1)) }
    ensures { result ≡ k.now +ℚ whole (pos 1) }
{
    Frac::ratio(plus_one(k.num()), 1)
}

fn plus_one(n: i128) -> i128
    requires { IsWithin (n +ℤ pos 1) }
    ensures value { result ≡ n +ℤ pos 1 }
    ensures within { IsWithin result }
{
    n + 1
}

fn is_below(x: &Frac, y: &Frac) -> bool
    ensures { IsTrue result ↔ (x.now <ℚ y.now) }
{
    match x.cmp(y) {
        Ordering::Less => true,
        Ordering::Equal => false,
        Ordering::Greater => false,
    }
}

/// Whether `k < value < k + 1`.
pub(crate) fn is_between(k: &Frac, value: &Frac) -> bool
    requires whole { IsWhole k.now }
    requires next { IsFrac (k.now +ℚ whole (pos 1)) }
    ensures { IsTrue result ↔ IsBetween k.now value.now }
{
    is_below(k, value) && is_below(value, &next(k))
}
