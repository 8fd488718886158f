//! Which marked literals are resolved: back over the trail from the conflict. Begin with `resolve`.
ghost use Rattle.std.specs.Prelude.{◌≡◌, ◌<◌, ◌≤◌, [], ℕ, true, false, length, IfOk, slice_get, Some};
ghost use Rattle.formula.specs.declared.atom.Lit.{Lit};
ghost use Rattle.clause_trail.specs.Standing.{IsJustified};
ghost use Rattle.clause_trail.specs.Decisions.{HasDecisionAt};
ghost use Rattle.clause_learn.specs.inside.Leaving.{HasOneLeft};
ghost use Rattle.clause_trail.specs.Scanning.{IsConflict};
ghost use Rattle.clause_learn.specs.inside.Analysis.{IsMarkedUp};

use crate::marks::{Marks, any_marked, is_set, mark_clause, resolve_at};
use clause_trail::{Trail, lits_at};
use formula::{Clause, Lit};
use std::alloc::{AllocError, Global};

/// Whether a marked place is resolved: before the first decision, between it and the last level where marked literals imply
/// it, and in the last level where another literal of the level is marked before it.
fn goes(marked: &[bool], implied: &[bool], base: usize, from: usize, i: usize) -> bool
    requires { i ≤ length marked.now }
    ensures { result ≡ false → (base ≤ i) × ((k : ℕ) → from ≤ k → k < i → slice_get marked.now k ≡ Some true → ⊥) }
{
    if i < base {
        return true;
    }
    if i < from {
        return is_set(implied, i);
    }
    any_marked(marked, from, i)
}

/// Whether all other literals of a place's reason are fixed at the start of the trail, marked, or implied in turn.
fn is_implied(
    trail: &Trail,
    reason: &[Lit],
    place: usize,
    base: usize,
    marked: &[bool],
    implied: &[bool],
) -> bool {
    for lit in reason {
        let Some(p) = trail.place(lit.boolean) else {
            return false;
        };
        if base <= p && p != place && !is_set(marked, p) && !is_set(implied, p) {
            return false;
        }
    }
    true
}

/// For each place before the last level whether marked literals imply it through the reasons.
fn implied(
    alloc: Global,
    trail: &Trail,
    clauses: &[Clause],
    marked: &[bool],
    base: usize,
    from: usize,
) -> Result<Vec<bool>, AllocError> {
    let entries = trail.entries();
    let mut implied = Vec::new(alloc);
    for (i, entry) in entries.iter().enumerate() {
        if from <= i {
            return Ok(implied);
        }
        let mut is = false;
        if let Some(reason) = entry.reason {
            if base <= i && reason < clauses.len() {
                is = is_implied(
                    trail,
                    clauses[reason].lits(),
                    i,
                    base,
                    marked,
                    implied.as_slice(),
                );
            }
        }
        implied.push(is)?;
    }
    Ok(implied)
}

/// Marks the literals of the conflict.
fn start(
    alloc: Global,
    trail: &Trail,
    clauses: &[Clause],
    conflict: usize,
    base: usize,
    from: usize,
) -> Result<Marks, AllocError>
    requires { IsConflict clauses.now trail.now.entries conflict }
    ensures marked { IfOk result (λ r. IsMarkedUp clauses.now trail.now.entries conflict r.marked.items r.resolved.items) }
    ensures one { IfOk result (λ r. HasOneLeft base from (length trail.now.entries) r.marked.items r.resolved.items) }
{
    let entries = trail.entries();
    let mut marks = vec![in alloc; false; entries.len()]?;
    let resolves = vec![in alloc; false; entries.len()]?;
    let marked = marks.as_mut_slice();
    mark_clause(trail, lits_at(clauses, conflict), marked);
    Ok(Marks {
        marked: marks,
        resolved: resolves,
    })
}

/// Goes back over these places of the trail, and resolves the marked ones that go.
fn resolve_range(
    trail: &Trail,
    clauses: &[Clause],
    conflict: usize,
    base: usize,
    from: usize,
    low: usize,
    high: usize,
    implied: &[bool],
    marked: &mut [bool],
    resolved: &mut [bool],
)
    requires justified { IsJustified clauses.now trail.now.entries }
    requires base { (i : ℕ) → i < base → HasDecisionAt trail.now.entries i → ⊥ }
    requires from { (i : ℕ) → from < i → HasDecisionAt trail.now.entries i → ⊥ }
    requires range { low ≤ high }
    requires within { high ≤ length trail.now.entries }
    requires marked { IsMarkedUp clauses.now trail.now.entries conflict marked.old resolved.old }
    requires one { HasOneLeft base from high marked.old resolved.old }
    ensures marked { IsMarkedUp clauses.now trail.now.entries conflict marked.new resolved.new }
    ensures one { HasOneLeft base from low marked.new resolved.new }
{
    let entries = trail.entries();
    for i in (low..high).rev() {
        if marked[i] && goes(marked, implied, base, from, i) {
            if let Some(reason) = entries[i].reason {
                resolve_at(trail, clauses, i, reason, marked, resolved);
            }
        }
    }
}

/// Goes back over the trail from the conflict, and resolves what is fixed at the start of the trail, what marked literals imply,
/// and all but one of the literals from `from` on.
pub fn resolve(
    alloc: Global,
    trail: &Trail,
    clauses: &[Clause],
    conflict: usize,
    base: usize,
    from: usize,
) -> Result<Marks, AllocError>
    requires justified { IsJustified clauses.now trail.now.entries }
    requires conflict { IsConflict clauses.now trail.now.entries conflict }
    requires base { (i : ℕ) → i < base → HasDecisionAt trail.now.entries i → ⊥ }
    requires from { (i : ℕ) → from < i → HasDecisionAt trail.now.entries i → ⊥ }
    requires within { from ≤ length trail.now.entries }
    ensures marked { IfOk result (λ r. IsMarkedUp clauses.now trail.now.entries conflict r.marked.items r.resolved.items) }
    ensures one { IfOk result (λ r. HasOneLeft base from 0 r.marked.items r.resolved.items) }
{
    let entries = trail.entries();
    let mut marks = start(alloc, trail, clauses, conflict, base, from)?;
    resolve_range(
        trail,
        clauses,
        conflict,
        base,
        from,
        from,
        entries.len(),
        &[],
        marks.marked.as_mut_slice(),
        marks.resolved.as_mut_slice(),
    );
    let implied = implied(alloc, trail, clauses, marks.marked.as_slice(), base, from)?;
    resolve_range(
        trail,
        clauses,
        conflict,
        base,
        from,
        0,
        from,
        implied.as_slice(),
        marks.marked.as_mut_slice(),
        marks.resolved.as_mut_slice(),
    );
    Ok(marks)
}
