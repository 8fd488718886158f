//! The literals that are left as a clause, and the hints of what was resolved.
ghost use Rattle.std.specs.Prelude.{◌≡◌, ◌<◌, ℕ, List, Bool, true, false, length, IfOk, MatchOption, slice_get, Some};
ghost use Rattle.formula.specs.declared.atom.Lit.{Lit};
ghost use Rattle.theory_law.specs.Units.{Follows};
ghost use Rattle.clause_trail.specs.Standing.{Stands};
ghost use Rattle.clause_learn.specs.Learning.{IsRising};
ghost use Rattle.clause_learn.specs.inside.Analysis.{IsKept, IsKeptAt, IsAnalyzed};

use clause_trail::{Entry, Trail};
use formula::Lit;
use std::alloc::{AllocError, Global};

#[derive(Drop)]
pub struct Learned {
    pub lits: Vec<Lit>,
    pub hints: Vec<u64>,
}

/// The reasons of the resolved places in order, and the conflict.
pub fn hints(
    alloc: Global,
    entries: &[Entry],
    resolved: &[bool],
    conflict: u64,
) -> Result<Vec<u64>, AllocError>
    requires { length resolved.now ≡ length entries.now }
    ensures { IfOk result (λ h. (clauses : List (List Lit)) (marked : List Bool) (before : List Lit) → IsAnalyzed clauses entries.now marked resolved.now conflict before → Follows clauses before h.items) }
{
    let mut hints = Vec::new(alloc);
    for (i, entry) in entries.iter().enumerate() {
        if resolved[i] {
            if let Some(reason) = entry.reason {
                hints.push(reason as u64)?;
            }
        }
    }
    hints.push(conflict)?;
    Ok(hints)
}

/// The literal of a Boolean, turned, where it is marked and not resolved.
fn kept_at(trail: &Trail, marked: &[bool], resolved: &[bool], boolean: u64) -> Option<Lit>
    requires marked { length marked.now ≡ length trail.now.entries }
    requires resolved { length resolved.now ≡ length trail.now.entries }
    ensures { MatchOption result ((p : ℕ) (m : Lit) → Stands trail.now.entries p m → m.boolean ≡ boolean → slice_get marked.now p ≡ Some true → slice_get resolved.now p ≡ Some false → ⊥) (IsKeptAt trail.now.entries marked.now resolved.now boolean) }
{
    let entries = trail.entries();
    let Some(p) = trail.place(boolean) else {
        return None;
    };
    if !marked[p] || resolved[p] {
        return None;
    }
    let lit = entries[p].lit;
    Some(Lit {
        boolean: lit.boolean,
        pos: !lit.pos,
    })
}

/// The literals that are marked and not resolved, turned, in rising order of their Booleans.
pub fn kept(
    alloc: Global,
    trail: &Trail,
    marked: &[bool],
    resolved: &[bool],
) -> Result<Vec<Lit>, AllocError>
    requires marked { length marked.now ≡ length trail.now.entries }
    requires resolved { length resolved.now ≡ length trail.now.entries }
    ensures kept { IfOk result (λ v. IsKept trail.now.entries marked.now resolved.now v.items) }
    ensures rising { IfOk result (λ v. IsRising v.items) }
{
    let mut lits = Vec::new(alloc);
    for b in 0..trail.booleans() {
        if let Some(lit) = kept_at(trail, marked, resolved, b as u64) {
            lits.push(lit)?;
        }
    }
    Ok(lits)
}
