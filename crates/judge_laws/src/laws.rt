//! Laws of the judge. Each stands as a function with an empty body, whose clause is the law.
ghost use Rattle.std.specs.Prelude.{◌≡◌, ◌↔◌, ◌<◌, ℕ, List, Some, length, slice_get};
ghost use Rattle.std.specs.List.{AllByRecursion};
ghost use Rattle.frac128.specs.declared.operations.Wide.{Wide};
ghost use Rattle.frac128.specs.Operations.{Passes};
ghost use Rattle.formula.specs.declared.atom.Lit.{Lit};
ghost use Rattle.formula.specs.declared.point.Point.{Point};
ghost use Rattle.formula.specs.Contents.{Contents, IsFormula};
ghost use Rattle.formula.specs.Meets.{IsSolution};
ghost use Rattle.theory_law.specs.declared.log.LogStep.{LogStep};
ghost use Rattle.theory_law.specs.declared.trace.Coefs.{Coefs};
ghost use Rattle.theory_law.specs.Log.{IsSound, IsSoundLog, HasEmpty, after_log};
ghost use Rattle.farkas_law.specs.Lemma.{IsShown};
ghost use Rattle.cert_check.specs.Judged.{Accepts, AreAccepted, PassesIn};
ghost use Rattle.task_core.specs.Task.{GroundParts, IsGroundTask};
ghost use Rattle.task_core.specs.Plan.{Reaches};
ghost use Rattle.encode_laws.specs.Encoding.{formula_of};
ghost use Rattle.judge_laws.specs.Licensed.{IsLicensedWithin, IsLicensedLogWithin, added};

use encode_laws::laws::point_where_reached;

/// A step is accepted exactly where it is sound and licensed.
pub fn accepted_where_sound_and_licensed()
    ensures { (f : Contents) (s : LogStep Coefs) → IsFormula f → Accepts f s ↔ (IsSound IsShown f s × IsLicensedWithin f s) }
{}

/// A log is accepted exactly where it is sound and licensed.
pub fn log_accepted_where_sound_and_licensed()
    ensures { (f : Contents) (log : List (LogStep Coefs)) → IsFormula f → AreAccepted f log ↔ (IsSoundLog IsShown f log × IsLicensedLogWithin f log) }
{}

/// No point with whole counts meets a formula over which an accepted log has the empty clause.
pub fn accepted_log_refutes()
    ensures { (f : Contents) (log : List (LogStep Coefs)) (p : Point) → IsFormula f → AreAccepted f log → HasEmpty (after_log f log) → IsSolution f p → ⊥ }
{}

/// Where an accepted log over the formula of n copies of a pattern has the empty clause, no word of n copies of it is a valid plan.
pub fn accepted_log_refutes_words()
    ensures { (task : GroundParts) (pattern : List ℕ) (n : ℕ) (log : List (LogStep Coefs)) → IsGroundTask task → AllByRecursion (λ a. a < length task.actions) pattern
        → IsFormula (formula_of task pattern n) → AreAccepted (formula_of task pattern n) log → HasEmpty (after_log (formula_of task pattern n) log) → Reaches task pattern n → ⊥ }
{
    point_where_reached();
    accepted_log_refutes();
}

/// No lemma or learned clause is accepted twice.
pub fn no_clause_is_accepted_twice()
    ensures { (f : Contents) (log : List (LogStep Coefs)) (i j : ℕ) (c : List Lit) → AreAccepted f log → slice_get (added log) i ≡ Some c → slice_get (added log) j ≡ Some c → i ≡ j }
{}

/// An operation that the judge answers passes 128 bits.
pub fn refused_operation_passes()
    ensures { (f : Contents) (s : LogStep Coefs) (w : Wide) → PassesIn f s w → Passes w.op w.x w.y }
{}
