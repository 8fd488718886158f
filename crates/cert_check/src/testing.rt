//! The tests of a step, one function for each kind of step. They change nothing of the formula.
ghost use Rattle.std.specs.Prelude.{◌≡◌, ◌<◌, ◌↔◌, ◌⊎◌, true, List, map, length, slice_get, Some, IsTrue, IfOk, All, pos};
ghost use Rattle.formula.specs.Contents.{is_clause};
ghost use Rattle.formula.specs.Reading.{opposite};
ghost use Rattle.theory_law.specs.Units.{Follows};
ghost use Rattle.theory_law.specs.Licence.{IsNew};
ghost use Rattle.cert_check.specs.Judged.{IsKnown, Judged};
ghost use Rattle.cert_check.specs.inside.Ready.{IsReady};
ghost use Rattle.cert_check.specs.inside.Indexed.{IsIndexed};

use crate::bad::Bad;
use crate::denial::{deny, is_new};
use crate::known::{are_numbers, are_of_atoms, can_split, is_between, is_clause, is_exact};
use clause_index::ClauseIndex;
use clause_units::{Truths, follows};
use formula::{Clause, Formula, Point};
use frac128::Frac;
use lin::LinFail;
use sqlite_items::Items;
use std::alloc::AllocError;
use theory_law::{Coefs, LogStep};

fn is_known_lemma(formula: &Formula, clause: &Clause, why: &Coefs) -> bool
    ensures { IsTrue result ↔ IsKnown formula.now (LogStep.Lemma clause.now why.now) }
{
    is_clause(formula.booleans(), clause.lits())
        && are_of_atoms(formula, clause.lits())
        && why.list.len() == clause.lits().len()
}

fn is_known_learn(formula: &Formula, clause: &Clause, hints: &Items<u64>) -> bool
    ensures { IsTrue result ↔ IsKnown formula.now (LogStep.Learn clause.now hints.now) }
{
    is_clause(formula.booleans(), clause.lits())
        && are_numbers(hints.as_slice(), formula.clauses().len())
}

fn is_known_split(formula: &Formula, boolean: u64, var: u64, k: &Frac, point: &Point) -> bool
    ensures { IsTrue result ↔ IsKnown formula.now (LogStep.Split boolean var k.now point.now) }
{
    boolean == formula.booleans() && can_split(formula, var, k) && is_exact(formula, point)
}

// Whether the clause contains no earlier one.
fn contains_none(
    formula: &Formula,
    truths: &mut Truths,
    index: &ClauseIndex,
    clause: &Clause,
) -> Result<bool, AllocError>
    requires ready { IsReady formula.now truths.old }
    requires indexed { IsIndexed formula.now.clauses index.now }
    requires clause { is_clause (length formula.now.atoms) clause.now ≡ true }
    ensures ready { IsReady formula.now truths.new }
    ensures answer { IfOk result (λ r. IsTrue r ↔ IsNew formula.now.clauses clause.now) }
{
    let denied = deny(truths, clause.lits());
    let new = is_new(truths, index, formula.clauses(), clause.lits());
    truths.clear();
    denied?;
    Ok(new)
}

// Whether a learned clause follows by its hints, and whether it contains no earlier one.
#[derive(Drop)]
struct Learned {
    follows: bool,
    new: bool,
}

fn follow(
    formula: &Formula,
    truths: &mut Truths,
    index: &ClauseIndex,
    clause: &Clause,
    hints: &[u64],
) -> Result<Learned, AllocError>
    requires ready { IsReady formula.now truths.old }
    requires indexed { IsIndexed formula.now.clauses index.now }
    requires clause { is_clause (length formula.now.atoms) clause.now ≡ true }
    requires known { All (λ h. h < length formula.now.clauses) hints.now }
    ensures ready { IsReady formula.now truths.new }
    ensures follows { IfOk result (λ r. IsTrue r.follows ↔ Follows formula.now.clauses (map opposite clause.now) hints.now) }
    ensures new { IfOk result (λ r. IsTrue r.new ↔ IsNew formula.now.clauses clause.now) }
{
    let denied = deny(truths, clause.lits());
    let new = is_new(truths, index, formula.clauses(), clause.lits());
    let followed = follows(truths, formula.clauses(), hints);
    truths.clear();
    denied?;
    Ok(Learned {
        follows: followed?,
        new,
    })
}

/// The tests of a lemma.
pub(crate) fn test_lemma(
    formula: &Formula,
    truths: &mut Truths,
    index: &ClauseIndex,
    clause: &Clause,
    why: &Coefs,
) -> Result<(), Bad>
    requires ready { IsReady formula.now truths.old }
    requires indexed { IsIndexed formula.now.clauses index.now }
    ensures answer { Judged formula.now (LogStep.Lemma clause.now why.now) result }
    ensures ready { IsReady formula.now truths.new }
{
    if !is_known_lemma(formula, clause, why) {
        return Err(Bad::Known);
    }
    match formula.farkas(clause.lits(), why.list.as_slice()) {
        Ok(true) => {}
        Ok(false) => return Err(Bad::Farkas),
        Err(LinFail::Wide(wide)) => return Err(Bad::Wide(wide)),
        Err(LinFail::Memory) => return Err(Bad::Memory),
    }
    if !contains_none(formula, truths, index, clause)? {
        return Err(Bad::Licence);
    }
    Ok(())
}

/// The tests of a learned clause.
pub(crate) fn test_learn(
    formula: &Formula,
    truths: &mut Truths,
    index: &ClauseIndex,
    clause: &Clause,
    hints: &Items<u64>,
) -> Result<(), Bad>
    requires ready { IsReady formula.now truths.old }
    requires indexed { IsIndexed formula.now.clauses index.now }
    ensures answer { Judged formula.now (LogStep.Learn clause.now hints.now) result }
    ensures ready { IsReady formula.now truths.new }
{
    if !is_known_learn(formula, clause, hints) {
        return Err(Bad::Known);
    }
    let learned = follow(formula, truths, index, clause, hints.as_slice())?;
    if !learned.follows {
        return Err(Bad::Hint);
    }
    if !learned.new {
        return Err(Bad::Licence);
    }
    Ok(())
}

// The value of a variable.
fn value_at(point: &Point, var: u64) -> &Frac
    requires { var < length point.now.values }
    ensures { slice_get point.now.values var ≡ Some result.now }
{
    &point.values.as_slice()[var as usize]
}

/// The tests of a split.
pub(crate) fn test_split(
    formula: &Formula,
    boolean: u64,
    var: u64,
    k: &Frac,
    point: &Point,
) -> Result<(), Bad>
    ensures { Judged formula.now (LogStep.Split boolean var k.now point.now) result }
{
    if !is_known_split(formula, boolean, var, k, point) {
        return Err(Bad::Known);
    }
    match formula.meets(point) {
        Ok(true) => {}
        Ok(false) => return Err(Bad::Licence),
        Err(wide) => return Err(Bad::Wide(wide)),
    }
    if !is_between(k, value_at(point, var)) {
        return Err(Bad::Licence);
    }
    Ok(())
}
