//! The answer of a check, from where its pivots led. Begin with `conclude`.
ghost use Rattle.std.specs.Prelude.{◌≡◌, ◌<◌, ℕ, Bool, None, true, length, List, IsTrue, IfOk, MatchResult};
ghost use Rattle.formula.specs.declared.atom.Lit.{Lit};
ghost use Rattle.formula.specs.Contents.{Contents};
ghost use Rattle.tableau.specs.Table.{width, is_basic};
ghost use Rattle.simplex_law.specs.Config.{IsPlaced, IsStuck};
ghost use Rattle.simplex_law.specs.declared.pair.Pair.{Pair};
ghost use Rattle.simplex_clash.specs.Setting.{limits_of, IsSetting};
ghost use Rattle.simplex_clash.specs.Clash.{IsLemmaOf};
ghost use Rattle.theory_law.specs.Verdicts.{FailHolds, IsStuckAt};
ghost use Rattle.simplex_judge.specs.Points.{DecideAtoms};
ghost use Rattle.simplex_judge.specs.Judged.{seen_of, StuckOver, JudgedHolds};
ghost use Rattle.simplex_judge.specs.inside.Checking.{IsAt, IsChecking};
ghost use Rattle.simplex_judge.specs.inside.Traced.{IsTraced};

use crate::settling::settle;
use formula::{Formula, Lit};
use frac128::Wide;
use simplex_atoms::Sides;
use simplex_check::{CheckFail, Verdict as Found};
use simplex_clash::stuck;
use simplex_judge::{Begun, Judged, Ran, clash, trace};
use simplex_law::Side;
use std::alloc::{AllocError, Global};
use tableau::Tableau;
use theory_law::{Lemma, Site, TheoryFail, Trace, Verdict};

// The lemma of a row that is stuck.
fn stuck_lemma(
    alloc: Global,
    t: &Tableau,
    r: u64,
    side: Side,
    begun: &Begun,
) -> Result<Lemma, AllocError>
    requires row { r < width t.now }
    requires basic { IsTrue (is_basic t.now r) }
    requires lower { length begun.now.both.lower.by.items ≡ width t.now }
    requires upper { length begun.now.both.upper.by.items ≡ width t.now }
    ensures { IfOk result (λ m. (f : Contents) (lits : List Lit) (place : ℕ → Pair) → IsSetting f lits t.now begun.now.both.lower begun.now.both.upper
        → IsPlaced (limits_of begun.now.both.lower begun.now.both.upper) t.now place → IsStuck (limits_of begun.now.both.lower begun.now.both.upper) t.now place r side → IsLemmaOf f lits m) }
{
    stuck(alloc, t, r, side, &begun.both.lower, &begun.both.upper)
}

// The trace of a check that stopped after these pivots.
fn trace_after(
    alloc: Global,
    begun: Begun,
    ran: Ran,
    site: Site,
    wide: Option<Wide>,
) -> Result<Trace, AllocError>
    ensures { IfOk result (IsTraced begun ran.swaps.items site wide None) }
{
    let Ran {
        place: _place,
        known: _known,
        swaps,
        answer: _answer,
    } = ran;
    trace(alloc, begun, &swaps, site, wide, None)
}

// The clash of a lemma after these pivots.
fn clash_after(
    alloc: Global,
    formula: &Formula,
    events: &[Option<Lit>],
    begun: Begun,
    ran: Ran,
    m: Lemma,
) -> Result<Judged, TheoryFail>
    requires checking { IsChecking formula.now events.now begun }
    requires lemma { IsLemmaOf formula.now begun.lits.items m }
    ensures { (pivots : ℕ) (full : Bool) → MatchResult result (JudgedHolds formula.now pivots events.now full) (FailHolds (IsStuckAt StuckOver (seen_of formula.now pivots events.now))) }
{
    let Ran {
        place: _place,
        known: _known,
        swaps,
        answer: _answer,
    } = ran;
    clash(alloc, formula, events, begun, &swaps, m)
}

/// The verdict, or the trace of where the check stopped.
pub fn conclude(
    alloc: Global,
    formula: &Formula,
    sides: &[Option<Sides>],
    events: &[Option<Lit>],
    pivots: u64,
    t: &Tableau,
    begun: Begun,
    ran: Ran,
    full: bool,
) -> Result<Judged, TheoryFail>
    requires at { IsAt formula.now sides.now events.now pivots t.now begun ran }
    requires decided { full ≡ true → DecideAtoms formula.now begun.lits.items }
    ensures { MatchResult result (JudgedHolds formula.now pivots events.now full) (FailHolds (IsStuckAt StuckOver (seen_of formula.now pivots events.now))) }
{
    let answer = ran.answer;
    match answer {
        Ok(Found::Fits) => {
            if full {
                return settle(alloc, formula, sides, events, pivots, t, begun, ran);
            }
            Ok(Judged {
                verdict: Verdict::Fits,
                point: None,
            })
        }
        Ok(Found::Clash(r, side)) => {
            let lemma = stuck_lemma(alloc, t, r, side, &begun)?;
            clash_after(alloc, formula, events, begun, ran, lemma)
        }
        Ok(Found::Spent) => {
            let stopped = trace_after(alloc, begun, ran, Site::Pivots, None)?;
            Err(TheoryFail::Pivots(stopped))
        }
        Err(CheckFail::Value(w)) => {
            let stopped = trace_after(alloc, begun, ran, Site::Value, Some(w))?;
            Err(TheoryFail::Wide(stopped))
        }
        Err(CheckFail::Pivot(w)) => {
            let stopped = trace_after(alloc, begun, ran, Site::Pivot, Some(w))?;
            Err(TheoryFail::Wide(stopped))
        }
        Err(CheckFail::Memory) => Err(TheoryFail::Memory),
    }
}
