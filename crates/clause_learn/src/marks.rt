//! The literals of a trail that a conflict stands on, marked, and those that their reasons resolve.
ghost use Rattle.std.specs.Prelude.{◌≡◌, ◌<◌, ◌≤◌, ℕ, true, false, length, slice_get, slice_set, Some, ◌⊎◌};
ghost use Rattle.std.specs.List.{Contains};
ghost use Rattle.formula.specs.declared.atom.Lit.{Lit};
ghost use Rattle.clause_trail.specs.Standing.{Stands, IsJustified};
ghost use Rattle.clause_learn.specs.inside.Analysis.{IsClosed, Grows};

use clause_trail::{Trail, lits_at};
use formula::{Clause, Lit};

#[derive(Drop)]
pub struct Marks {
    pub marked: Vec<bool>,
    pub resolved: Vec<bool>,
}

/// Marks the place of a Boolean.
fn mark(trail: &Trail, boolean: u64, marked: &mut [bool])
    requires { length marked.old ≡ length trail.now.entries }
    ensures kept { (p : ℕ) → slice_get marked.old p ≡ Some true → slice_get marked.new p ≡ Some true }
    ensures here { (p : ℕ) (l : Lit) → Stands trail.now.entries p l → l.boolean ≡ boolean → slice_get marked.new p ≡ Some true }
    ensures only { (p : ℕ) → slice_get marked.new p ≡ Some true → (slice_get marked.old p ≡ Some true) ⊎ ((l : Lit) × Stands trail.now.entries p l × (l.boolean ≡ boolean)) }
{
    let entries = trail.entries();
    if let Some(p) = trail.place(boolean) {
        marked[p] = true;
    }
}

/// Marks the places of the clause's Booleans.
pub fn mark_clause(trail: &Trail, clause: &[Lit], marked: &mut [bool])
    requires { length marked.old ≡ length trail.now.entries }
    ensures kept { (p : ℕ) → slice_get marked.old p ≡ Some true → slice_get marked.new p ≡ Some true }
    ensures here { (m : Lit) → Contains clause.now m → (p : ℕ) (l : Lit) → Stands trail.now.entries p l → l.boolean ≡ m.boolean → slice_get marked.new p ≡ Some true }
    ensures only { (p : ℕ) → slice_get marked.new p ≡ Some true → (slice_get marked.old p ≡ Some true) ⊎ ((m : Lit) × Contains clause.now m × (l : Lit) × Stands trail.now.entries p l × (l.boolean ≡ m.boolean)) }
{
    for lit in clause {
        mark(trail, lit.boolean, marked);
    }
}

/// Resolves a marked place by its reason.
pub fn resolve_at(
    trail: &Trail,
    clauses: &[Clause],
    place: usize,
    reason: usize,
    marked: &mut [bool],
    resolved: &mut [bool],
)
    requires justified { IsJustified clauses.now trail.now.entries }
    requires marked { length marked.old ≡ length trail.now.entries }
    requires resolved { length resolved.old ≡ length trail.now.entries }
    requires entry { (l : Lit) × (slice_get trail.now.entries place ≡ Some (record { lit = l; reason = Some reason })) }
    requires here { slice_get marked.old place ≡ Some true }
    requires closed { IsClosed clauses.now trail.now.entries marked.old resolved.old }
    ensures closed { IsClosed clauses.now trail.now.entries marked.new resolved.new }
    ensures grows { Grows marked.old marked.new }
    ensures below { (p : ℕ) → slice_get marked.new p ≡ Some true → place ≤ p → slice_get marked.old p ≡ Some true }
    ensures resolved { resolved.new ≡ slice_set resolved.old place true }
{
    let entries = trail.entries();
    mark_clause(trail, lits_at(clauses, reason), marked);
    resolved[place] = true;
}

/// Whether a place of the range is marked.
pub fn any_marked(marked: &[bool], from: usize, to: usize) -> bool
    requires { to ≤ length marked.now }
    ensures { result ≡ false → (k : ℕ) → from ≤ k → k < to → slice_get marked.now k ≡ Some true → ⊥ }
{
    for k in from..to {
        if marked[k] {
            return true;
        }
    }
    false
}

/// Whether the flag of this place is set.
pub fn is_set(flags: &[bool], place: usize) -> bool {
    if place < flags.len() {
        return flags[place];
    }
    false
}
