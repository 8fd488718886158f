//! A check of what is asserted. Begin with `judge`.
ghost use Rattle.std.specs.Prelude.{◌≡◌, ◌<◌, ◌↔◌, ℕ, Bool, List, true, length, IfOk, MatchResult, slice_get, Some};
ghost use Rattle.std.specs.declared.option.Option.{Option};
ghost use Rattle.rational.specs.Fraction.{Fraction};
ghost use Rattle.formula.specs.declared.atom.Lit.{Lit};
ghost use Rattle.formula.specs.declared.atom.Atom.{Atom};
ghost use Rattle.formula.specs.Contents.{Contents};
ghost use Rattle.farkas_law.specs.Lemma.{bare};
ghost use Rattle.theory_law.specs.Seen.{IsAsserted};
ghost use Rattle.theory_law.specs.Verdicts.{FailHolds, IsStuckAt};
ghost use Rattle.tableau.specs.Table.{Table, width, Solves, IsTidy};
ghost use Rattle.simplex_law.specs.Config.{lower_of, upper_of, IsConsistent};
ghost use Rattle.simplex_check.specs.Starts.{Crosses, CrossingAnswers};
ghost use Rattle.simplex_clash.specs.Setting.{limits_of, IsSetting};
ghost use Rattle.simplex_clash.specs.Clash.{IsLemmaOf};
ghost use Rattle.simplex_fit.specs.Fit.{IsFit};
ghost use Rattle.simplex_fit.specs.Assigned.{AreOfAtoms};
ghost use Rattle.simplex_judge.specs.Judged.{seen_of, StuckOver, JudgedHolds};
ghost use Rattle.simplex_judge.specs.inside.Ran.{IsRan};

use crate::concluding::conclude;
use formula::{Formula, Lit};
use simplex_atoms::Sides;
use simplex_check::crossing as first_crossing;
use simplex_clash::crossing as crossing_lemma;
use simplex_judge::{Begun, Judged, Ran, begin, clash, run};
use std::alloc::{AllocError, Global};
use tableau::Tableau;
use theory_law::{Lemma, TheoryFail};

// The least variable whose bounds cross.
fn crossing(begun: &Begun) -> Option<usize>
    requires { length begun.now.both.upper.bounds.items ≡ length begun.now.both.lower.bounds.items }
    ensures { CrossingAnswers (limits_of begun.now.both.lower begun.now.both.upper) (length begun.now.both.lower.bounds.items) result }
{
    first_crossing(&begun.both.lower.bounds, &begun.both.upper.bounds)
}

// The lemma of bounds that cross.
fn lemma(alloc: Global, v: usize, begun: &Begun) -> Result<Lemma, AllocError>
    requires lower { v < length begun.now.both.lower.by.items }
    requires upper { v < length begun.now.both.upper.by.items }
    ensures { IfOk result (λ m. (f : Contents) (lits : List Lit) (t : Table) → IsSetting f lits t begun.now.both.lower begun.now.both.upper
        → Crosses (lower_of (limits_of begun.now.both.lower begun.now.both.upper) v) (upper_of (limits_of begun.now.both.lower begun.now.both.upper) v) → IsLemmaOf f lits m) }
{
    crossing_lemma(alloc, v, &begun.both.lower, &begun.both.upper)
}

// The pivots.
fn pivot(alloc: Global, t: &mut Tableau, begun: &Begun, pivots: u64) -> Result<Ran, AllocError>
    requires lower { length begun.now.both.lower.bounds.items ≡ width t.old }
    requires upper { length begun.now.both.upper.bounds.items ≡ width t.old }
    requires consistent { IsConsistent (limits_of begun.now.both.lower begun.now.both.upper) (width t.old) }
    ensures wide { width t.new ≡ width t.old }
    ensures same { (point : ℕ → Fraction) → Solves t.old point ↔ Solves t.new point }
    ensures tidy { IsTidy t.new }
    ensures answers { IfOk result (IsRan (limits_of begun.now.both.lower begun.now.both.upper) t.old pivots t.new) }
{
    let lower = begun.both.lower.bounds.as_slice();
    let upper = begun.both.upper.bounds.as_slice();
    run(alloc, t, lower, upper, pivots)
}

/// The verdict on what is asserted, or the trace of where the check stopped. With `full` every atom is asserted.
pub fn judge(
    alloc: Global,
    formula: &Formula,
    sides: &[Option<Sides>],
    t: &mut Tableau,
    events: &[Option<Lit>],
    pivots: u64,
    full: bool,
) -> Result<Judged, TheoryFail>
    requires fit { IsFit formula.now sides.now t.old }
    requires bare { formula.now ≡ bare formula.now.counts formula.now.atoms }
    requires of_atoms { AreOfAtoms formula.now.atoms events.now }
    requires full { full ≡ true → (b : ℕ) (a : Atom) → slice_get formula.now.atoms b ≡ Some (Some a) → (s : Bool) × IsAsserted events.now (record { boolean = b; pos = s }) }
    ensures fit { IsFit formula.now sides.now t.new }
    ensures answers { MatchResult result (JudgedHolds formula.now pivots events.now full) (FailHolds (IsStuckAt StuckOver (seen_of formula.now pivots events.now))) }
{
    let begun = begin(alloc, formula, sides, t, events)?;
    if let Some(v) = crossing(&begun) {
        let m = lemma(alloc, v, &begun)?;
        let swaps = Vec::new(alloc);
        return clash(alloc, formula, events, begun, &swaps, m);
    }
    let ran = pivot(alloc, t, &begun, pivots)?;
    conclude(alloc, formula, sides, events, pivots, t, begun, ran, full)
}
