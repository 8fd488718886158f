//! Propagation over a trail.
ghost use Rattle.std.specs.Prelude.{◌≡◌, ◌⊎◌, length, IfOk, OnOk, OnErr, MatchOption, ◌<◌, true, false, Some, None};
ghost use Rattle.std.specs.List.{All};
ghost use Rattle.clause_trail.specs.Scanning.{IsConflict, IsSatisfied, HasTwoFree};
ghost use Rattle.clause_trail.specs.Decisions.{IsWithin};
ghost use Rattle.clause_trail.specs.Pushing.{IsPushed, AssertsClause};

use crate::scanning::{Next, Scanned, first_open, lits_at, scan};
use crate::trail::{Entry, Trail};
use formula::Clause;
use std::alloc::AllocError;

/// Makes true what a clause forces, until a clause is false or none forces anything.
pub fn units(trail: &mut Trail, clauses: &[Clause]) -> Result<Option<u64>, AllocError>
    requires { All (IsWithin trail.old.booleans) clauses.now }
    ensures booleans { trail.new.booleans ≡ trail.old.booleans }
    ensures pushed { IsPushed clauses.now trail.old.booleans trail.old.entries trail.new.entries }
    ensures quiet { IfOk result (λ r. MatchOption r (All (λ c. IsSatisfied trail.new.entries c ⊎ HasTwoFree trail.new.entries c) clauses.now) (IsConflict clauses.now trail.new.entries)) }
{
    'units: loop {
        match first_open(trail, clauses) {
            Next::Done => return Ok(None),
            Next::Conflict(k) => return Ok(Some(k as u64)),
            Next::Unit(k, lit) => trail.push(Entry {
                lit,
                reason: Some(k),
            })?,
        }
    }
}

/// Makes true what the clause of this number forces.
pub fn assert_clause(trail: &mut Trail, clauses: &[Clause], number: usize) -> Result<(), AllocError>
    requires number { number < length clauses.now }
    requires within { All (IsWithin trail.old.booleans) clauses.now }
    ensures ok { OnOk result (AssertsClause clauses.now number trail.old.entries trail.new.entries) }
    ensures err { OnErr result (trail.new.entries ≡ trail.old.entries) }
    ensures booleans { trail.new.booleans ≡ trail.old.booleans }
    ensures pushed { IsPushed clauses.now trail.old.booleans trail.old.entries trail.new.entries }
{
    match scan(trail, lits_at(clauses, number)) {
        Scanned::Unit(lit) => trail.push(Entry {
            lit,
            reason: Some(number),
        }),
        _ => Ok(()),
    }
}
