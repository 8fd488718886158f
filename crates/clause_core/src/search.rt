//! The search between two steps of the log. Begin with `round`: it propagates, asks the theory and decides. `search`
//! goes on until there is something to log or every Boolean is assigned. `choose` says which Boolean is decided, and with which truth.
ghost use Rattle.std.specs.Prelude.{◌≡◌, ◌<◌, ◌≤◌, ◌+◌, ◌++◌, ◌∷◌, ◌⊎◌, [], ℕ, List, true, false, length, OnOk, IfOk, IfErr, IsSome, MatchOption, slice_get, Some, None};
ghost use Rattle.std.specs.List.{Contains};
ghost use Rattle.rational.specs.Fraction.{Fraction};
ghost use Rattle.formula.specs.declared.atom.Lit.{Lit};
ghost use Rattle.theory_law.specs.Log.{HasEmpty};
ghost use Rattle.formula.specs.Meets.{Meets};
ghost use Rattle.theory_law.specs.Readings.{IsExact};
ghost use Rattle.theory_law.specs.Verdicts.{FailHolds};
ghost use Rattle.clause_trail.specs.Standing.{Stands, IsFree};
ghost use Rattle.clause_trail.specs.Propagation.{IsComplete, IsFalseAt};
ghost use Rattle.clause_core.specs.inside.Asking.{IsFull};
ghost use Rattle.clause_core.specs.Stepping.{StepHolds, IsStuck};
ghost use Rattle.clause_core.specs.inside.Taking.{IsOfCut};
ghost use Rattle.clause_core.specs.inside.Searching.{EventHolds, IsDone, IsLonger};

use crate::Core;
use crate::agenda::Agenda;
use crate::laws::propagate;
use crate::tell::ask;
use clause_learn::learn;
use clause_trail::{Entry, Trail};
use formula::{Clause, Lit, Point};
use frac128::Frac;
use sqlite_items::Items;
use std::alloc::{AllocError, Global};
use theory_law::{LogStep, Theory, TheoryFail, Verdict};

/// What a search stopped at.
#[derive(Drop)]
pub(crate) enum Event<W> {
    /// The clause of this number is false.
    Conflict(u64),
    Clash { clause: Clause, why: W },
    Cut { var: u64, k: Frac },
    /// Every Boolean is assigned, and the theory has a point with whole counts.
    Full,
}

/// The more active of a Boolean and the best so far, and that one where they are equal.
fn better(agenda: &Agenda, best: Option<u64>, boolean: u64) -> u64
    ensures { (result ≡ boolean) ⊎ (best ≡ Some result) }
{
    let Some(other) = best else {
        return boolean;
    };
    if agenda.activity(other) < agenda.activity(boolean) {
        return boolean;
    }
    other
}

/// The most active Boolean that isn't assigned.
fn free_in(trail: &Trail, agenda: &Agenda) -> Option<u64>
    ensures { MatchOption result ((b : ℕ) → b < trail.now.booleans → (p : ℕ) × (l : Lit) × Stands trail.now.entries p l × (l.boolean ≡ b)) (λ b. (b < trail.now.booleans) × IsFree trail.now.entries b) }
{
    let mut best = None;
    for b in 0..trail.booleans() {
        match trail.place(b as u64) {
            Some(_place) => {}
            None => best = Some(better(agenda, best, b as u64)),
        }
    }
    best
}

/// The most active Boolean that isn't assigned.
fn free_boolean<T: Theory>(core: &Core<T>) -> Option<u64>
    ensures { MatchOption result (IsFull (length core.now.formula.atoms) core.now.trail) (λ b. (b < length core.now.formula.atoms) × ((l : Lit) → Contains core.now.trail l → l.boolean ≡ b → ⊥)) }
{
    free_in(&core.trail, &core.agenda)
}

/// The literal to decide, of a Boolean that isn't assigned: the most active one, with the truth that it had last.
fn choose<T: Theory>(core: &Core<T>) -> Option<Lit>
    ensures { MatchOption result (IsFull (length core.now.formula.atoms) core.now.trail) (λ d. (d.boolean < length core.now.formula.atoms) × ((l : Lit) → Contains core.now.trail l → l.boolean ≡ d.boolean → ⊥)) }
{
    let Some(boolean) = free_boolean(core) else {
        return None;
    };
    Some(Lit {
        boolean,
        pos: core.agenda.phase(boolean),
    })
}

/// Makes the literal true, as a decision.
fn decide<T: Theory>(core: &mut Core<T>, lit: Lit) -> Result<(), AllocError>
    requires quiet { IsComplete core.old.formula.clauses core.old.trail }
    requires low { lit.boolean < length core.old.formula.atoms }
    requires unassigned { (l : Lit) → Contains core.old.trail l → l.boolean ≡ lit.boolean → ⊥ }
    ensures formula { core.new.formula ≡ core.old.formula }
    ensures theory { core.new.theory ≡ core.old.theory }
    ensures trail { OnOk result (core.new.trail ≡ core.old.trail ++ lit ∷ []) }
    ensures room { OnOk result (length core.new.trail ≤ length core.new.formula.atoms) }
{
    core.trail.push(Entry { lit, reason: None })
}

/// Propagates and asks. What there is to log then, or the trail with one more decision.
fn round<T: Theory>(core: &mut Core<T>) -> Result<Option<Event<T::Why>>, TheoryFail>
    ensures formula { core.new.formula ≡ core.old.formula }
    ensures pivots { (T.seen core.new.theory).pivots ≡ (T.seen core.old.theory).pivots }
    ensures event { IfOk result (λ e. MatchOption e (IsLonger (length core.new.formula.atoms) core.old.trail core.new.trail) (EventHolds T.shown T.cuts core.new (T.fixed core.new.theory) (T.cut core.new.theory))) }
    ensures trouble { IfErr result (FailHolds (IsStuck T.stuck core.old.formula (T.seen core.old.theory).pivots)) }
{
    let conflict = propagate(core)?;
    if let Some(k) = conflict {
        return Ok(Some(Event::Conflict(k)));
    }
    let choice = choose(core);
    let verdict = match ask(core, choice.is_none()) {
        Ok(verdict) => verdict,
        Err(fail) => return Err(fail),
    };
    match verdict {
        Verdict::Clash { clause, why } => return Ok(Some(Event::Clash { clause, why })),
        Verdict::Cut { var, k } => return Ok(Some(Event::Cut { var, k })),
        Verdict::Fits => {}
    }
    let Some(lit) = choice else {
        return Ok(Some(Event::Full));
    };
    decide(core, lit)?;
    Ok(None)
}

/// Goes on by rounds until there is something to log or every Boolean is assigned.
pub(crate) fn search<T: Theory>(core: &mut Core<T>) -> Result<Event<T::Why>, TheoryFail>
    ensures formula { core.new.formula ≡ core.old.formula }
    ensures pivots { (T.seen core.new.theory).pivots ≡ (T.seen core.old.theory).pivots }
    ensures event { IfOk result (EventHolds T.shown T.cuts core.new (T.fixed core.new.theory) (T.cut core.new.theory)) }
    ensures trouble { IfErr result (FailHolds (IsStuck T.stuck core.old.formula (T.seen core.old.theory).pivots)) }
{
    'search: loop {
        let found = match round(core) {
            Ok(found) => found,
            Err(fail) => return Err(fail),
        };
        if let Some(event) = found {
            return Ok(event);
        }
    }
}

/// The step that a false clause teaches.
pub(crate) fn learned<T: Theory>(
    core: &Core<T>,
    conflict: u64,
) -> Result<LogStep<T::Why>, AllocError>
    requires conflict { IsFalseAt core.now.formula.clauses core.now.trail conflict }
    requires none { HasEmpty core.now.formula → ⊥ }
    ensures holds { IfOk result (StepHolds T.shown T.cuts core.now.formula) }
    ensures taken { IfOk result (IsOfCut (T.cut core.now.theory)) }
{
    let learned = learn(
        core.alloc,
        &core.trail,
        core.formula.clauses(),
        conflict as usize,
    )?;
    Ok(LogStep::Learn {
        clause: Clause::new(learned.lits),
        hints: Items::from_vec(learned.hints),
    })
}

/// The truth of each Boolean.
fn truths(alloc: Global, trail: &Trail) -> Result<Vec<bool>, AllocError>
    ensures length { IfOk result (λ v. length v.items ≡ trail.now.booleans) }
    ensures holds { IfOk result (λ v. (p : ℕ) (l : Lit) → Stands trail.now.entries p l → slice_get v.items l.boolean ≡ Some l.pos) }
{
    let entries = trail.entries();
    let mut truths = Vec::new(alloc);
    for b in 0..trail.booleans() {
        let truth = match trail.place(b as u64) {
            Some(p) => entries[p].lit.pos,
            None => false,
        };
        truths.push(truth)?;
    }
    Ok(truths)
}

/// The values of the variables, as the theory fixed them.
fn values<T: Theory>(alloc: Global, theory: &T, vars: u64) -> Result<Vec<Frac>, AllocError>
    requires vars { length (T.seen theory.now).counts ≡ vars }
    requires fixed { IsSome (T.fixed theory.now) }
    ensures { IfOk result (λ v. (p : List Fraction) → T.fixed theory.now ≡ Some p → length p ≡ vars → v.items ≡ p) }
{
    let mut values = Vec::new(alloc);
    for v in 0..vars {
        values.push(theory.point(v))?;
    }
    Ok(values)
}

/// The point of a trail that assigns every Boolean, with the values that the theory fixed.
pub(crate) fn point_of<T: Theory>(core: &Core<T>) -> Result<Point, AllocError>
    requires fixed { IsSome (T.fixed core.now.theory) }
    requires done { (p : List Fraction) → T.fixed core.now.theory ≡ Some p → IsDone core.now p }
    ensures exact { IfOk result (IsExact core.now.formula) }
    ensures meets { IfOk result (Meets core.now.formula) }
    ensures values { IfOk result (λ point. (p : List Fraction) → T.fixed core.now.theory ≡ Some p → point.values ≡ p) }
{
    Ok(Point {
        values: Items::from_vec(values(core.alloc, &core.theory, core.formula.vars())?),
        truth: Items::from_vec(truths(core.alloc, &core.trail)?),
    })
}
