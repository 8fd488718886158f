//! Going back over the trail. Begin with `add`, which adds a clause and goes back to the level where it forces a literal;
//! `restart` goes back to the start. The theory takes back what it was told since.
ghost use Rattle.std.specs.Prelude.{◌≡◌, ◌<◌, ◌+◌, ℕ, true, length, take, IfSome, OnOk, Some, None};
ghost use Rattle.formula.specs.declared.atom.Lit.{Lit};
ghost use Rattle.formula.specs.Contents.{is_clause, with_clause};
ghost use Rattle.theory_law.specs.Seen.{with_asserted};
ghost use Rattle.clause_trail.specs.Propagation.{HasTwo};
ghost use Rattle.clause_core.specs.inside.Levels.{IsSettled};
ghost use Rattle.clause_core.specs.Solving.{IsSane, IsTold};
ghost use Rattle.clause_trail.specs.Decisions.{HasDecisionAt, lits_of};

use crate::Core;
use clause_trail::{Trail, assert_clause, cut, differs, first_decision, last_decision};
use formula::{Clause, Formula, Lit};
use std::alloc::AllocError;
use theory_law::Theory;

/// Takes back each decision that stands at or after the place. The number of entries that the theory is still told.
fn back_to<T: Theory>(
    trail: &mut Trail,
    theory: &mut T,
    formula: &Formula,
    told: usize,
    keep: usize,
) -> usize
    requires sane { IsSane formula.now.clauses formula.now.atoms trail.old.entries }
    requires told { IsTold formula.now.atoms (T.seen theory.old).asserted told trail.old.entries }
    ensures sane { IsSane formula.now.clauses formula.now.atoms trail.new.entries }
    ensures told { IsTold formula.now.atoms (T.seen theory.new).asserted result trail.new.entries }
    ensures seen { T.seen theory.new ≡ with_asserted (T.seen theory.old) (T.seen theory.new).asserted }
    ensures booleans { trail.new.booleans ≡ trail.old.booleans }
    ensures shorter { trail.new.entries ≡ take (length trail.new.entries) trail.old.entries }
    ensures kept { (d : ℕ) → HasDecisionAt trail.new.entries d → d < keep }
{
    let mut told = told;
    while let Some(place) = last_decision(trail.entries()) {
        if place < keep {
            return told;
        }
        cut(trail, place);
        if place < told {
            theory.back();
            told = place;
        }
    }
    told
}

/// Before this place at least two of the clause's literals are unassigned.
fn level_of(trail: &Trail, clause: &[Lit]) -> usize
    ensures { (d : ℕ) → d < result → HasTwo (lits_of (take d trail.now.entries)) clause.now }
{
    let entries = trail.entries();
    let mut top = 0;
    let mut keep = 0;
    for lit in clause {
        let Some(place) = trail.place(lit.boolean) else {
            continue;
        };
        if top <= place {
            keep = top;
            top = place + 1;
        } else if keep <= place && place + 1 < top {
            keep = place + 1;
        }
    }
    keep
}

/// The place of the clause's one literal, where it is true before each decision.
fn settled(trail: &Trail, clause: &[Lit]) -> Option<usize>
    ensures { IfSome result (IsSettled trail.now.entries clause.now) }
{
    if clause.len() != 1 {
        return None;
    }
    let lit = clause[0];
    let entries = trail.entries();
    let Some(place) = trail.place(lit.boolean) else {
        return None;
    };
    if differs(entries[place].lit, lit) {
        return None;
    }
    if place < first_decision(entries) {
        return Some(place);
    }
    None
}

/// Adds a clause, goes back to the level that it asks for, and makes true what it forces there. A clause of one literal that
/// is true at the start of the trail becomes its reason.
pub(crate) fn add<T: Theory>(core: &mut Core<T>, clause: Clause) -> Result<(), AllocError>
    requires { is_clause (length core.old.formula.atoms) clause ≡ true }
    ensures formula { OnOk result (core.new.formula ≡ with_clause clause core.old.formula) }
    ensures pivots { (T.seen core.new.theory).pivots ≡ (T.seen core.old.theory).pivots }
{
    if let Some(place) = settled(&core.trail, clause.lits()) {
        let number = core.formula.clauses().len();
        core.formula.add_clause(clause)?;
        core.trail.set_reason(place, number);
        return Ok(());
    }
    core.agenda.keep(core.trail.entries());
    let keep = level_of(&core.trail, clause.lits());
    core.told = back_to(
        &mut core.trail,
        &mut core.theory,
        &core.formula,
        core.told,
        keep,
    );
    let number = core.formula.clauses().len();
    core.formula.add_clause(clause)?;
    assert_clause(&mut core.trail, core.formula.clauses(), number)
}

/// Goes back to the start of the trail.
pub(crate) fn restart<T: Theory>(core: &mut Core<T>)
    ensures formula { core.new.formula ≡ core.old.formula }
    ensures pivots { (T.seen core.new.theory).pivots ≡ (T.seen core.old.theory).pivots }
{
    core.agenda.keep(core.trail.entries());
    core.told = back_to(
        &mut core.trail,
        &mut core.theory,
        &core.formula,
        core.told,
        0,
    );
}
