//! Conflict analysis. Begin with `learn`.
ghost use Rattle.std.specs.Prelude.{◌<◌, [], map, IfOk, Some};
ghost use Rattle.std.specs.List.{Contains, All};
ghost use Rattle.formula.specs.Reading.{opposite};
ghost use Rattle.theory_law.specs.Units.{Follows};
ghost use Rattle.theory_law.specs.Licence.{IsNew};
ghost use Rattle.clause_trail.specs.Standing.{Before, IsJustified};
ghost use Rattle.clause_trail.specs.Decisions.{IsBelow, IsComplete_before};
ghost use Rattle.clause_learn.specs.Learning.{IsRising};
ghost use Rattle.clause_trail.specs.Scanning.{IsConflict};

use crate::fixed::{first_fixed, learn_fixed};
use crate::kept::{Learned, hints, kept};
use crate::resolve::resolve;
use clause_trail::{Trail, first_decision, last_decision};
use formula::Clause;
use std::alloc::{AllocError, Global};

/// The clause that the conflict teaches, with its hints. Before that, the first literal on which it stands that holds at the
/// start of the trail by a longer clause is learned as a clause of its own, so that one hint then stands for its chain.
pub fn learn(
    alloc: Global,
    trail: &Trail,
    clauses: &[Clause],
    conflict: usize,
) -> Result<Learned, AllocError>
    requires justified { IsJustified clauses.now trail.now.entries }
    requires conflict { IsConflict clauses.now trail.now.entries conflict }
    requires below { IsBelow trail.now.booleans trail.now.entries }
    requires complete { IsComplete_before clauses.now trail.now.entries }
    requires none { Contains clauses.now [] → ⊥ }
    ensures learned { IfOk result (λ r. Follows clauses.now (map opposite r.lits.items) r.hints.items) }
    ensures within { IfOk result (λ r. All (λ m. m.boolean < trail.now.booleans) r.lits.items) }
    ensures licensed { IfOk result (λ r. IsNew clauses.now r.lits.items) }
    ensures rising { IfOk result (λ r. IsRising r.lits.items) }
{
    let entries = trail.entries();
    let base = first_decision(entries);
    let from = match last_decision(entries) {
        Some(place) => place,
        None => 0,
    };
    let marks = resolve(alloc, trail, clauses, conflict, base, from)?;
    if base < entries.len() {
        if let Some(fixed) = first_fixed(entries, clauses, marks.resolved.as_slice(), base) {
            return learn_fixed(alloc, trail, clauses, &fixed);
        }
    }
    let lits = kept(
        alloc,
        trail,
        marks.marked.as_slice(),
        marks.resolved.as_slice(),
    )?;
    let hints = hints(alloc, entries, marks.resolved.as_slice(), conflict as u64)?;
    Ok(Learned { lits, hints })
}
