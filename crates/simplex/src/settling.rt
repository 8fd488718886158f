//! The answer of a check that ends with nothing violated, where every atom is decided. Begin with `settle`.
ghost use Rattle.std.specs.Prelude.{◌≡◌, true, MatchResult, Ok};
ghost use Rattle.theory_law.specs.Verdicts.{FailHolds, IsStuckAt};
ghost use Rattle.simplex_check.specs.declared.checking.Verdict.TheVariants as found;
ghost use Rattle.simplex_judge.specs.Points.{DecideAtoms};
ghost use Rattle.simplex_judge.specs.Judged.{seen_of, StuckOver, JudgedHolds};
ghost use Rattle.simplex_judge.specs.inside.Checking.{IsAt};

use formula::{Formula, Lit};
use simplex_atoms::Sides;
use simplex_judge::{Begun, Judged, PointFail, Ran, pairs, solution, trace, verdict_at};
use std::alloc::Global;
use tableau::Tableau;
use theory_law::{Site, TheoryFail};

/// A point with whole counts, or the cut of its first count that isn't whole.
pub fn settle(
    alloc: Global,
    formula: &Formula,
    sides: &[Option<Sides>],
    events: &[Option<Lit>],
    pivots: u64,
    t: &Tableau,
    begun: Begun,
    ran: Ran,
) -> Result<Judged, TheoryFail>
    requires at { IsAt formula.now sides.now events.now pivots t.now begun ran }
    requires fits { ran.answer ≡ Ok found.Fits }
    requires decided { DecideAtoms formula.now begun.lits.items }
    ensures { MatchResult result (JudgedHolds formula.now pivots events.now true) (FailHolds (IsStuckAt StuckOver (seen_of formula.now pivots events.now))) }
{
    let Ran {
        place,
        known,
        swaps,
        answer: _answer,
    } = ran;
    let mut known = known;
    let pairs = match pairs(alloc, t, &place, &mut known) {
        Ok(pairs) => pairs,
        Err(PointFail::Wide(w)) => {
            let stopped = trace(alloc, begun, &swaps, Site::Value, Some(w), None)?;
            return Err(TheoryFail::Wide(stopped));
        }
        Err(PointFail::Memory) => return Err(TheoryFail::Memory),
    };
    let p = match solution(alloc, formula, &begun, &pairs) {
        Ok(p) => p,
        Err(PointFail::Wide(w)) => {
            let stopped = trace(alloc, begun, &swaps, Site::Point, Some(w), None)?;
            return Err(TheoryFail::Wide(stopped));
        }
        Err(PointFail::Memory) => return Err(TheoryFail::Memory),
    };
    match verdict_at(formula, p.values.as_slice()) {
        Some(verdict) => Ok(Judged {
            verdict,
            point: Some(p.values),
        }),
        None => Err(TheoryFail::Memory),
    }
}
