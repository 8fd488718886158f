//! Laws of logs. Each stands as a function with an empty body, whose clause is the law.
ghost use Rattle.std.specs.Prelude.{List};
ghost use Rattle.formula.specs.declared.point.Point.{Point};
ghost use Rattle.formula.specs.Contents.{Contents, IsFormula};
ghost use Rattle.formula.specs.Meets.{IsSolution};
ghost use Rattle.theory_law.specs.declared.log.LogStep.{LogStep};
ghost use Rattle.theory_law.specs.Log.{IsSoundLog, HasEmpty, after_log};

use theory_law::Theory;

/// No point with whole counts meets a formula over which a sound log has the empty clause: each step of the log leaves such a
/// point one, with a truth more for the Boolean of a split.
pub fn empty_clause_refutes<T: Theory>()
    ensures { (f : Contents) (log : List (LogStep T.Why)) (p : Point) → IsFormula f → IsSoundLog T.shown f log → HasEmpty (after_log f log)
        → IsSolution f p → ⊥ }
{}
