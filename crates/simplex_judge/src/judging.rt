//! The answers of a check: the clash of a lemma, and the point of a settled configuration.
ghost use Rattle.std.specs.Prelude.{◌≡◌, ◌<◌, ◌≤◌, ℕ, Bool, List, true, length, MatchResult, slice_get, Some, Ok};
ghost use Rattle.std.specs.declared.option.Option.{Option};
ghost use Rattle.formula.specs.declared.atom.Lit.{Lit};
ghost use Rattle.formula.specs.declared.atom.Atom.{Atom};
ghost use Rattle.theory_law.specs.Verdicts.{FailHolds, IsStuckAt};
ghost use Rattle.theory_law.specs.Seen.{IsAsserted};
ghost use Rattle.farkas_law.specs.Lemma.{bare};
ghost use Rattle.simplex_clash.specs.Clash.{IsLemmaOf};
ghost use Rattle.simplex_fit.specs.Fit.{IsFit};
ghost use Rattle.simplex_fit.specs.Assigned.{AreOfAtoms, AreSigns};
ghost use Rattle.simplex_judge.specs.Judged.{seen_of, StuckOver, JudgedHolds};
ghost use Rattle.simplex_check.specs.declared.checking.Verdict.TheVariants as found;
ghost use Rattle.simplex_judge.specs.Points.{DecideAtoms};
ghost use Rattle.simplex_judge.specs.inside.Checking.{IsChecking, IsAt};
ghost use Rattle.simplex_judge.specs.inside.Solved.{MakesPoint, SolutionAnswers};

use crate::beginning::{Begun, begin};
use crate::cutting::verdict_at;
use crate::pointing::{PointFail, point};
use crate::running::{Ran, run};
use crate::settling::{pairs, test, truths};
use crate::summing::sum;
use crate::tracing::trace;
use formula::{Formula, Lit, Point};
use frac128::Frac;
use lin::LinFail;
use simplex_atoms::Sides;
use simplex_check::{CheckFail, Verdict as Found, crossing};
use simplex_clash::stuck;
use simplex_law::Pair;
use sqlite_items::Items;
use std::alloc::{AllocError, Global};
use tableau::Tableau;
use theory_law::{Coefs, Lemma, Site, TheoryFail, Verdict};

/// A verdict, and the point that it speaks of, if it was made.
#[derive(Drop)]
pub struct Judged {
    pub verdict: Verdict<Coefs>,
    pub point: Option<Items<Frac>>,
}

/// The clash of a lemma, once its sum is made.
pub fn clash(
    alloc: Global,
    formula: &Formula,
    events: &[Option<Lit>],
    begun: Begun,
    swaps: &[(u64, u64)],
    m: Lemma,
) -> Result<Judged, TheoryFail>
    requires checking { IsChecking formula.now events.now begun }
    requires lemma { IsLemmaOf formula.now begun.lits.items m }
    ensures { (pivots : ℕ) (full : Bool) → MatchResult result (JudgedHolds formula.now pivots events.now full) (FailHolds (IsStuckAt StuckOver (seen_of formula.now pivots events.now))) }
{
    match sum(formula, &m) {
        Ok(()) => {}
        Err(LinFail::Wide(w)) => {
            let t = trace(alloc, begun, swaps, Site::Farkas, Some(w), Some(m))?;
            return Err(TheoryFail::Wide(t));
        }
        Err(LinFail::Memory) => return Err(TheoryFail::Memory),
    }
    let Lemma { clause, coefs } = m;
    Ok(Judged {
        verdict: Verdict::Clash { clause, why: coefs },
        point: None,
    })
}

/// The point of these values, tested.
pub fn solution(
    alloc: Global,
    formula: &Formula,
    begun: &Begun,
    pairs: &[Pair],
) -> Result<Point, PointFail>
    requires lower { length begun.now.both.lower.bounds.items ≡ length pairs.now }
    requires upper { length begun.now.both.upper.bounds.items ≡ length pairs.now }
    requires vars { length formula.now.counts ≤ length pairs.now }
    requires bare { formula.now ≡ bare formula.now.counts formula.now.atoms }
    requires signs { (events : List (Option Lit)) × AreSigns events (length formula.now.atoms) begun.now.signs.items }
    requires met { MakesPoint formula.now begun.now pairs.now }
    ensures { SolutionAnswers formula.now begun.now pairs.now result }
{
    let lower = begun.both.lower.bounds.as_slice();
    let upper = begun.both.upper.bounds.as_slice();
    let values = match point(alloc, lower, upper, pairs, formula.vars() as usize) {
        Ok(values) => values,
        Err(fail) => return Err(fail),
    };
    let truth = truths(alloc, &begun.signs)?;
    let p = Point {
        values: Items::from_vec(values),
        truth: Items::from_vec(truth),
    };
    match test(formula, &p) {
        Ok(()) => Ok(p),
        Err(w) => Err(PointFail::Wide(w)),
    }
}
