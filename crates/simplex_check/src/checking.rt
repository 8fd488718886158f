//! The check: steps by Bland's rule until nothing is violated, nothing helps, or the pivots are spent.
ghost use Rattle.std.specs.Prelude.{◌≡◌, [], ◌∷◌, ◌++◌, length, OnOk};
ghost use Rattle.tableau.specs.Table.{width};
ghost use Rattle.simplex_law.specs.Config.{pair_at, IsPlaced, IsConsistent};
ghost use Rattle.simplex_check.specs.Checks.{limits, CheckAnswers};
ghost use Rattle.simplex_check.specs.Known.{IsKnown};

use crate::choice::violated;
use crate::step::{Step, StepFail, advance};
use frac128::Wide;
use simplex_law::{Bound, Pair, Side};
use std::alloc::AllocError;
use tableau::Tableau;
use thiserror::Error;

/// What a check found: that the bounds can be met, a row that violates one and that nothing helps, or that its pivots are
/// spent.
#[derive(Clone, Copy, PartialEq, Eq, Debug)]
pub enum Verdict {
    Fits,
    Clash(u64, Side),
    Spent,
}

/// Why a check has no verdict: an operation of a basic variable's value or of a pivot passes, or want of memory for the trace.
#[derive(Clone, Copy, PartialEq, Eq, Debug, Error)]
pub enum CheckFail {
    #[error("an operation of a value passes 128 bits")]
    Value(Wide),
    #[error("an operation of a pivot passes 128 bits")]
    Pivot(Wide),
    #[error("out of memory")]
    Memory,
}

impl From<AllocError> for CheckFail {
    ghost use Rattle.std.specs.Prelude.{◌≡◌};
    ghost use Rattle.simplex_check.specs.declared.checking.CheckFail.TheVariants as fail;

    ghost from_gives = { λ _ e. e ≡ fail.Memory };

    fn from(_error: AllocError) -> CheckFail {
        CheckFail::Memory
    }
}

// One more pivot in the trace.
fn note(trace: &mut Vec<(u64, u64)>, r: u64, e: u64) -> Result<(), AllocError>
    ensures { OnOk result (trace.new.items ≡ trace.old.items ++ (r, e) ∷ []) }
{
    trace.push((r, e))?;
    Ok(())
}

/// At most `pivots` pivots by Bland's rule, which `trace` has afterwards, each with the variable that leaves and the one that
/// enters. `place` has the values of the non-basic variables, and `known` those of basic ones as far as they are known.
pub fn check(
    t: &mut Tableau,
    lower: &[Option<Bound>],
    upper: &[Option<Bound>],
    place: &mut [Pair],
    known: &mut [Option<Pair>],
    pivots: u64,
    trace: &mut Vec<(u64, u64)>,
) -> Result<Verdict, CheckFail>
    requires lower { length lower.now ≡ width t.old }
    requires upper { length upper.now ≡ width t.old }
    requires places { length place.old ≡ width t.old }
    requires many { length known.old ≡ width t.old }
    requires consistent { IsConsistent (limits lower.now upper.now) (width t.old) }
    requires placed { IsPlaced (limits lower.now upper.now) t.old (pair_at place.old) }
    requires known { IsKnown t.old (pair_at place.old) known.old }
    requires empty { trace.old.items ≡ [] }
    ensures known { IsKnown t.new (pair_at place.new) known.new }
    ensures answers { CheckAnswers (limits lower.now upper.now) t.old (pair_at place.old) pivots trace.new.items t.new (pair_at place.new) result }
{
    for done in 0..pivots {
        match advance(t, lower, upper, place, known) {
            Ok(Step::Settled) => return Ok(Verdict::Fits),
            Ok(Step::Stuck(r, side)) => return Ok(Verdict::Clash(r, side)),
            Ok(Step::Moved(r, e)) => note(trace, r, e)?,
            Err(StepFail::Value(w)) => return Err(CheckFail::Value(w)),
            Err(StepFail::Pivot(w)) => return Err(CheckFail::Pivot(w)),
        }
    }
    match violated(t, lower, upper, place, known) {
        Ok(None) => Ok(Verdict::Fits),
        Ok(Some(_)) => Ok(Verdict::Spent),
        Err(w) => Err(CheckFail::Value(w)),
    }
}
