//! The values of a settled configuration, and the test of its point.
ghost use Rattle.std.specs.Prelude.{◌≡◌, ◌<◌, ℕ, [], length, map, unwrap_or, false, IfOk};
ghost use Rattle.tableau.specs.Table.{width};
ghost use Rattle.formula.specs.Meets.{IsPointOf, HoldsAt};
ghost use Rattle.simplex_law.specs.Config.{pair_at};
ghost use Rattle.simplex_check.specs.Known.{IsKnown};
ghost use Rattle.simplex_judge.specs.inside.Settled.{PairsAnswer, TestAnswers};

use crate::pointing::PointFail;
use formula::{Formula, Point};
use frac128::{Frac, Wide};
use simplex_check::all_values;
use simplex_law::Pair;
use std::alloc::{AllocError, Global};
use tableau::Tableau;

/// The value of each variable.
pub fn pairs(
    alloc: Global,
    t: &Tableau,
    place: &[Pair],
    known: &mut [Option<Pair>],
) -> Result<Vec<Pair>, PointFail>
    requires places { length place.now ≡ width t.now }
    requires many { length known.old ≡ width t.now }
    requires known { IsKnown t.now (pair_at place.now) known.old }
    ensures { PairsAnswer t.now (pair_at place.now) result }
{
    let zero = Pair {
        main: Frac::ratio(0, 1),
        small: Frac::ratio(0, 1),
    };
    let mut pairs = vec![in alloc; zero; t.width() as usize]?;
    match all_values(t, place, known, &mut pairs) {
        Ok(()) => Ok(pairs),
        Err(w) => Err(PointFail::Wide(w)),
    }
}

/// The truth of each Boolean; one that isn't asserted is false.
pub fn truths(alloc: Global, signs: &[Option<bool>]) -> Result<Vec<bool>, AllocError>
    ensures { IfOk result (λ v. v.items ≡ map (λ s. unwrap_or s false) signs.now) }
{
    let mut truths = Vec::new(alloc);
    for sign in signs {
        truths.push(sign.unwrap_or(false))?;
    }
    Ok(truths)
}

/// Tests a point that meets the atoms of a formula without clauses.
pub fn test(formula: &Formula, p: &Point) -> Result<(), Wide>
    requires point { IsPointOf formula.now p.now }
    requires bare { formula.now.clauses ≡ [] }
    requires holds { (b : ℕ) → b < length formula.now.atoms → HoldsAt formula.now p.now b }
    ensures { TestAnswers formula.now p.now result }
{
    match formula.meets(p) {
        Ok(true) => Ok(()),
        Ok(false) => unreachable!(),
        Err(w) => Err(w),
    }
}
