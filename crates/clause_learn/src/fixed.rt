//! A literal that holds at the start of the trail as a clause of its own.
ghost use Rattle.std.specs.Prelude.{◌≡◌, IfSome, ◌<◌, ◌≤◌, ◌∷◌, [], ℕ, true, false, map, length, IfOk, slice_get, Some};
ghost use Rattle.std.specs.List.{All};
ghost use Rattle.formula.specs.declared.atom.Lit.{Lit};
ghost use Rattle.formula.specs.Reading.{opposite};
ghost use Rattle.theory_law.specs.Units.{Follows};
ghost use Rattle.theory_law.specs.Licence.{IsNew, IsPart};
ghost use Rattle.clause_trail.specs.Standing.{IsJustified};
ghost use Rattle.clause_trail.specs.Decisions.{IsBelow, HasDecisionAt};
ghost use Rattle.clause_learn.specs.Learning.{IsRising};
ghost use Rattle.clause_learn.specs.inside.Analysis.{IsFixed, IsChain};

use crate::kept::{Learned, hints};
use crate::marks::{Marks, is_set, mark_clause, resolve_at};
use clause_trail::{Entry, Trail, differs, lits_at};
use formula::{Clause, Lit};
use std::alloc::{AllocError, Global};

/// A literal that holds at the start of the trail by a longer clause.
#[derive(Drop)]
pub struct Fixed {
    pub place: usize,
    pub lit: Lit,
    pub reason: usize,
}

/// Whether each literal of the clause is this one.
fn is_alone(clause: &[Lit], lit: Lit) -> bool
    ensures { result ≡ false → IsPart clause.now (lit ∷ []) → ⊥ }
{
    for other in clause {
        if differs(*other, lit) {
            return false;
        }
    }
    true
}

/// Whether no clause has this literal alone.
fn is_new(clauses: &[Clause], lit: Lit) -> bool
    ensures { result ≡ true → IsNew clauses.now (lit ∷ []) }
{
    for clause in clauses {
        if is_alone(clause.lits(), lit) {
            return false;
        }
    }
    true
}

/// The first resolved literal before the first decision that no clause has alone.
pub fn first_fixed(
    entries: &[Entry],
    clauses: &[Clause],
    resolved: &[bool],
    base: usize,
) -> Option<Fixed>
    requires { base ≤ length entries.now }
    ensures { IfSome result (IsFixed clauses.now entries.now base) }
{
    for i in 0..base {
        if is_set(resolved, i) {
            if let Some(reason) = entries[i].reason {
                let lit = entries[i].lit;
                if is_new(clauses, lit) {
                    return Some(Fixed {
                        place: i,
                        lit,
                        reason,
                    });
                }
            }
        }
    }
    None
}

/// Marks what the reason of a place stands on, back to the start of the trail, and resolves all of it.
fn chain(
    alloc: Global,
    trail: &Trail,
    clauses: &[Clause],
    fixed: &Fixed,
) -> Result<Marks, AllocError>
    requires justified { IsJustified clauses.now trail.now.entries }
    requires entry { slice_get trail.now.entries fixed.now.place ≡ Some (record { lit = fixed.now.lit; reason = Some fixed.now.reason }) }
    requires start { (i : ℕ) → i ≤ fixed.now.place → HasDecisionAt trail.now.entries i → ⊥ }
    ensures { IfOk result (λ r. IsChain clauses.now trail.now.entries fixed.now.place fixed.now.lit fixed.now.reason 0 r.marked.items r.resolved.items) }
{
    let entries = trail.entries();
    let mut marks = vec![in alloc; false; entries.len()]?;
    let mut resolves = vec![in alloc; false; entries.len()]?;
    let marked = marks.as_mut_slice();
    let resolved = resolves.as_mut_slice();
    mark_clause(trail, lits_at(clauses, fixed.reason), marked);
    marked[fixed.place] = false;
    for i in (0..fixed.place).rev() {
        if marked[i] {
            if let Some(reason) = entries[i].reason {
                resolve_at(trail, clauses, i, reason, marked, resolved);
            }
        }
    }
    Ok(Marks {
        marked: marks,
        resolved: resolves,
    })
}

/// A literal that holds at the start of the trail as a clause of its own, with its hints.
pub fn learn_fixed(
    alloc: Global,
    trail: &Trail,
    clauses: &[Clause],
    fixed: &Fixed,
) -> Result<Learned, AllocError>
    requires justified { IsJustified clauses.now trail.now.entries }
    requires below { IsBelow trail.now.booleans trail.now.entries }
    requires unstated { IsNew clauses.now (fixed.now.lit ∷ []) }
    requires entry { slice_get trail.now.entries fixed.now.place ≡ Some (record { lit = fixed.now.lit; reason = Some fixed.now.reason }) }
    requires start { (i : ℕ) → i ≤ fixed.now.place → HasDecisionAt trail.now.entries i → ⊥ }
    ensures learned { IfOk result (λ r. Follows clauses.now (map opposite r.lits.items) r.hints.items) }
    ensures within { IfOk result (λ r. All (λ m. m.boolean < trail.now.booleans) r.lits.items) }
    ensures licensed { IfOk result (λ r. IsNew clauses.now r.lits.items) }
    ensures rising { IfOk result (λ r. IsRising r.lits.items) }
{
    let entries = trail.entries();
    let marks = chain(alloc, trail, clauses, fixed)?;
    let mut lits = Vec::new(alloc);
    lits.push(fixed.lit)?;
    let hints = hints(
        alloc,
        entries,
        marks.resolved.as_slice(),
        fixed.reason as u64,
    )?;
    Ok(Learned { lits, hints })
}
