//! Laws of logs over the formula of n copies. Each stands as a function whose clause is the law.
ghost use Rattle.std.specs.Prelude.{ℕ, ◌<◌, List, length};
ghost use Rattle.std.specs.List.{AllByRecursion};
ghost use Rattle.task_core.specs.Task.{GroundParts, IsGroundTask};
ghost use Rattle.task_core.specs.Plan.{Reaches};
ghost use Rattle.formula.specs.Contents.{IsFormula};
ghost use Rattle.encode_laws.specs.Encoding.{formula_of};
ghost use Rattle.theory_law.specs.declared.log.LogStep.{LogStep};
ghost use Rattle.theory_law.specs.Log.{IsSoundLog, HasEmpty, after_log};

use encode_laws::laws::point_where_reached;
use log_laws::empty_clause_refutes;
use theory_law::Theory;

/// Where a sound log over the formula of n copies of a pattern has the empty clause, no word of n copies of it is a valid plan.
pub fn empty_clause_refutes_words<T: Theory>()
    ensures { (task : GroundParts) (pattern : List ℕ) (n : ℕ) (log : List (LogStep T.Why)) → IsGroundTask task → AllByRecursion (λ a. a < length task.actions) pattern
        → IsFormula (formula_of task pattern n) → IsSoundLog T.shown (formula_of task pattern n) log → HasEmpty (after_log (formula_of task pattern n) log) → Reaches task pattern n → ⊥ }
{
    point_where_reached();
    empty_clause_refutes::<T>();
}
