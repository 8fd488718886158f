//! Propagation, and what a point of a formula with a log is to the formula.
ghost use Rattle.std.specs.Prelude.{◌≡◌, List, IfOk, MatchOption};
ghost use Rattle.formula.specs.declared.point.Point.{Point};
ghost use Rattle.formula.specs.Contents.{Contents};
ghost use Rattle.formula.specs.Meets.{IsSolution};
ghost use Rattle.theory_law.specs.declared.log.LogStep.{LogStep};
ghost use Rattle.theory_law.specs.Log.{after_log};
ghost use Rattle.clause_trail.specs.Propagation.{IsGrown, IsComplete, IsFalseAt};

use crate::Core;
use clause_trail::units;
use std::alloc::AllocError;
use theory_law::Theory;

/// Makes true what a clause forces. The number of a clause with only false literals, where there is one.
pub fn propagate<T: Theory>(core: &mut Core<T>) -> Result<Option<u64>, AllocError>
    ensures formula { core.new.formula ≡ core.old.formula }
    ensures theory { core.new.theory ≡ core.old.theory }
    ensures grown { IsGrown core.old.formula.clauses core.old.trail core.new.trail }
    ensures quiet { IfOk result (λ r. MatchOption r (IsComplete core.new.formula.clauses core.new.trail) (IsFalseAt core.new.formula.clauses core.new.trail)) }
{
    units(&mut core.trail, core.formula.clauses())
}

/// A point that meets a formula with a log behind it meets the formula.
pub fn point_of_a_log_meets_the_formula<W>()
    ensures { (f : Contents) (log : List (LogStep W)) (p : Point) → IsSolution (after_log f log) p → IsSolution f p }
{}
