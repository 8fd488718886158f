//! Does a clause follow from others by unit propagation? Begin with `follows`: with some literals true, each hint but the last
//! names a clause that makes one more true, and the last a clause that is false.
ghost use Rattle.std.specs.Prelude.{◌≡◌, ◌<◌, ◌↔◌, length, List, IfOk, IsTrue, All, OnErr, MatchOption};
ghost use Rattle.formula.specs.declared.atom.Lit.{Lit};
ghost use Rattle.theory_law.specs.Units.{Follows};
ghost use Rattle.clause_units.specs.Truth.{Tells, AreWithin};
ghost use Rattle.clause_units.specs.Scanning.{ScanHolds, IsBroken, IsUnitIn};

use crate::truths::Truths;
use formula::{Clause, Lit};
use std::alloc::AllocError;

#[derive(Drop)]
pub enum Scanned {
    /// A literal is true.
    Met,
    /// All are false.
    Broken,
    /// All are false but this one, which is open.
    Unit(Lit),
    /// Two are open.
    Open,
}

/// What a clause says.
pub fn scan(truths: &Truths, clause: &[Lit]) -> Scanned
    ensures { ScanHolds truths.now clause.now result }
{
    let mut unit: Option<Lit> = None;
    for lit in clause {
        match truths.truth(*lit) {
            Some(true) => return Scanned::Met,
            Some(false) => {}
            None => {
                if let Some(first) = unit {
                    if first != *lit {
                        return Scanned::Open;
                    }
                }
                unit = Some(*lit);
            }
        }
    }
    match unit {
        Some(lit) => Scanned::Unit(lit),
        None => Scanned::Broken,
    }
}

/// Whether all literals are false.
pub fn is_broken(truths: &Truths, clause: &[Lit]) -> bool
    ensures { IsTrue result ↔ IsBroken truths.now clause.now }
{
    match scan(truths, clause) {
        Scanned::Broken => true,
        _ => false,
    }
}

// The open literal of a clause whose others are false.
fn unit_of(truths: &Truths, clause: &[Lit]) -> Option<Lit>
    ensures { MatchOption result ((l : Lit) → IsUnitIn truths.now clause.now l → ⊥) (IsUnitIn truths.now clause.now) }
{
    match scan(truths, clause) {
        Scanned::Unit(lit) => Some(lit),
        _ => None,
    }
}

/// Whether each hint but the last has one literal that is left, which is then made true, and the last has none. All that is
/// made true stays so.
pub fn follows(truths: &mut Truths, clauses: &[Clause], hints: &[u64]) -> Result<bool, AllocError>
    requires known { All (λ h. h < length clauses.now) hints.now }
    requires within { All (AreWithin (length truths.old)) clauses.now }
    ensures long { length truths.new ≡ length truths.old }
    ensures answer { (trues : List Lit) → Tells truths.old trues → IfOk result (λ r. IsTrue r ↔ Follows clauses.now trues hints.now) }
{
    for (i, hint) in hints.iter().enumerate() {
        let lits = clauses[*hint as usize].lits();
        if i + 1 == hints.len() {
            return Ok(is_broken(truths, lits));
        }
        let Some(lit) = unit_of(truths, lits) else {
            return Ok(false);
        };
        truths.assign(lit)?;
    }
    Ok(false)
}
