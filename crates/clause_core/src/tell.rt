//! Asking the theory. Begin with `ask`: it tells the theory what the trail has since it was last told, and lets it check.
ghost use Rattle.std.specs.Prelude.{◌≡◌, ◌<◌, Bool, true, length, IfOk, IfErr, slice_get, Some, None};
ghost use Rattle.std.specs.List.{Contains};
ghost use Rattle.formula.specs.declared.atom.Lit.{Lit};
ghost use Rattle.formula.specs.Reading.{opposite};
ghost use Rattle.theory_law.specs.Seen.{IsAsserted, marks, with_events, with_asserted};
ghost use Rattle.theory_law.specs.Verdicts.{FailHolds, last_cut};
ghost use Rattle.clause_core.specs.Solving.{mark_of, put_of, atom_of, events, IsTold};
ghost use Rattle.clause_trail.specs.Propagation.{IsComplete};
ghost use Rattle.clause_core.specs.inside.Asking.{AnswerHolds, IsFull};
ghost use Rattle.clause_core.specs.Stepping.{IsStuck};

use crate::Core;
use clause_trail::Trail;
use formula::{Formula, Lit};
use theory_law::{Theory, TheoryFail, Verdict};

/// Sets the mark of a decision.
fn begin<T: Theory>(theory: &mut T, reason: Option<usize>)
    requires { marks (T.seen theory.old).asserted < length (T.seen theory.old).atoms }
    ensures { T.seen theory.new ≡ with_events (T.seen theory.old) (mark_of reason) }
{
    match reason {
        None => theory.mark(),
        Some(_) => {}
    }
}

/// Asserts the literal where its Boolean has an atom.
fn put<T: Theory>(theory: &mut T, formula: &Formula, lit: Lit)
    requires low { lit.boolean < length formula.now.atoms }
    requires atoms { (T.seen theory.old).atoms ≡ formula.now.atoms }
    requires open { (s : Bool) → IsAsserted (T.seen theory.old).asserted (record { boolean = lit.boolean; pos = s }) → ⊥ }
    ensures { T.seen theory.new ≡ with_events (T.seen theory.old) (put_of (atom_of (slice_get formula.now.atoms lit.boolean)) lit) }
{
    match formula.atom(lit.boolean) {
        Some(_atom) => theory.put(lit),
        None => {}
    }
}

/// Tells the theory the entries from `told` on.
fn tell<T: Theory>(theory: &mut T, trail: &Trail, formula: &Formula, told: usize)
    requires told { IsTold formula.now.atoms (T.seen theory.old).asserted told trail.now.entries }
    requires atoms { (T.seen theory.old).atoms ≡ formula.now.atoms }
    requires booleans { trail.now.booleans ≡ length formula.now.atoms }
    ensures { T.seen theory.new ≡ with_asserted (T.seen theory.old) (events formula.now.atoms trail.now.entries) }
{
    let _booleans = trail.booleans();
    let entries = trail.entries();
    for i in told..entries.len() {
        let entry = entries[i];
        begin(theory, entry.reason);
        put(theory, formula, entry.lit);
    }
}

/// Asks the theory about the trail, on which propagation is complete.
pub(crate) fn ask<T: Theory>(core: &mut Core<T>, full: bool) -> Result<Verdict<T::Why>, TheoryFail>
    requires quiet { IsComplete core.old.formula.clauses core.old.trail }
    requires full { full ≡ true → IsFull (length core.old.formula.atoms) core.old.trail }
    ensures formula { core.new.formula ≡ core.old.formula }
    ensures trail { core.new.trail ≡ core.old.trail }
    ensures pivots { (T.seen core.new.theory).pivots ≡ (T.seen core.old.theory).pivots }
    ensures consistent { (l : Lit) → Contains core.old.trail l → Contains core.old.trail (opposite l) → ⊥ }
    ensures cut { T.cut core.new.theory ≡ last_cut result }
    ensures answer { IfOk result (AnswerHolds T.shown T.cuts core.old.formula core.old.trail full (T.fixed core.new.theory)) }
    ensures trouble { IfErr result (FailHolds (IsStuck T.stuck core.old.formula (T.seen core.old.theory).pivots)) }
{
    let entries = core.trail.entries();
    tell(&mut core.theory, &core.trail, &core.formula, core.told);
    core.told = entries.len();
    core.theory.check(full)
}
