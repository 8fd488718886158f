//! A clause taken as false: what units start from, and a measure of other clauses, since those that are then false too are the
//! parts of it.
ghost use Rattle.std.specs.Prelude.{◌≡◌, ◌↔◌, true, List, map, length, IsTrue, OnOk, OnErr};
ghost use Rattle.formula.specs.declared.atom.Lit.{Lit};
ghost use Rattle.formula.specs.Contents.{is_clause};
ghost use Rattle.formula.specs.Reading.{opposite};
ghost use Rattle.theory_law.specs.Licence.{IsNew};
ghost use Rattle.clause_units.specs.Truth.{IsBare, Tells};
ghost use Rattle.cert_check.specs.inside.Indexed.{HasBroken, IsIndexed};

use clause_index::ClauseIndex;
use clause_units::{Truths, is_broken};
use formula::{Clause, Lit};
use std::alloc::AllocError;

/// Makes each literal false. Nothing was assigned before.
pub(crate) fn deny(truths: &mut Truths, lits: &[Lit]) -> Result<(), AllocError>
    requires bare { IsBare truths.old }
    requires clause { is_clause (length truths.old) lits.now ≡ true }
    ensures long { length truths.new ≡ length truths.old }
    ensures denied { OnOk result (Tells truths.new (map opposite lits.now)) }
{
    for lit in lits {
        truths.assign(lit.opposite())?;
    }
    Ok(())
}

// Whether a clause with one of these numbers is false.
fn has_broken(truths: &Truths, clauses: &[Clause], numbers: &[usize]) -> bool
    ensures { IsTrue result ↔ HasBroken truths.now clauses.now numbers.now }
{
    for number in numbers {
        if *number < clauses.len() && is_broken(truths, clauses[*number].lits()) {
            return true;
        }
    }
    false
}

/// Whether the clause that is false contains none of these. Its parts stand under its literals.
pub(crate) fn is_new(truths: &Truths, index: &ClauseIndex, clauses: &[Clause], lits: &[Lit]) -> bool
    requires { IsIndexed clauses.now index.now }
    ensures { Tells truths.now (map opposite lits.now) → IsTrue result ↔ IsNew clauses.now lits.now }
{
    if index.has_empty() {
        return false;
    }
    for lit in lits {
        if has_broken(truths, clauses, index.listed(*lit)) {
            return false;
        }
    }
    true
}
