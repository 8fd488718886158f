//! Laws: what so many steps of an instance that rolls come to. Each stands as a function with an empty body, whose clauses are
//! the laws.
ghost use Rattle.std.specs.Prelude.{◌≡◌, ℕ, suc, ◌≤◌, true, List, ◌++◌, replicate};
ghost use Rattle.std.specs.List.{list_all};
ghost use Rattle.frac128.specs.Operations.{Passes};
ghost use Rattle.frac128.specs.declared.operations.Wide.{Wide};
ghost use Rattle.pddl_task.specs.Linear.{IsLinear};
ghost use Rattle.pddl_task.specs.declared.instance.Instance.{Instance};
ghost use Rattle.pddl_task.specs.declared.parts.TaskParts.{TaskParts};
ghost use Rattle.plan_step.specs.declared.failure.StepFail.{StepFail};
ghost use Rattle.plan_step.specs.declared.failure.StepFail.TheVariants as fail;
ghost use Rattle.plan_step.specs.State.{PlanState};
ghost use Rattle.plan_step.specs.Laws.{IsRefutal};
ghost use Rattle.plan_step.specs.Meaning.{all_hold, HasStep, Run};
ghost use Rattle.plan_repeat.specs.Repeat.{Breaks};
ghost use Rattle.plan_repeat.specs.Rolling.{IsRollable, keeps, literal_holds, rolled};

/// Rolling: where an instance that rolls has its step, and its conditions hold again after n steps at once, it has n + 1 steps
/// in turn, and they come to what they are at once. Where its conditions hold after n steps they hold after fewer.
pub fn rolling()
    ensures runs { (task : TaskParts) (s t : PlanState) (by : Instance) (h : HasStep task s by t) (n : ℕ) → IsLinear task → IsRollable task h.action by.args h.changes
        → all_hold (rolled h.changes s n) by.args h.action.conds ≡ true → Run task s (replicate (suc n) by) (rolled h.changes s (suc n)) }
    ensures between { (task : TaskParts) (s t : PlanState) (by : Instance) (h : HasStep task s by t) (m n : ℕ) → IsLinear task → IsRollable task h.action by.args h.changes → m ≤ n
        → all_hold (rolled h.changes s n) by.args h.action.conds ≡ true → all_hold (rolled h.changes s m) by.args h.action.conds ≡ true }
{}

/// After a step the state tells whether the literals stay: they hold there exactly where each that holds before the step's
/// changes holds after them.
pub fn literals_are_told()
    ensures { (task : TaskParts) (s t : PlanState) (by : Instance) (h : HasStep task s by t)
        → list_all (literal_holds t by.args) h.action.conds ≡ list_all (keeps h.changes by.args) h.action.conds }
{}

/// Where a repetition is refuted, so many steps have no run, and it is refuted in one way. An operation that is told passes 128
/// bits.
pub fn refuted_repetition_is_none()
    ensures none { (task : TaskParts) (by : Instance) (s u : PlanState) (times at : ℕ) (e : StepFail) (more : List Instance) → Breaks task s by times at e → IsRefutal e → Run task s (replicate times by ++ more) u → ⊥ }
    ensures one { (task : TaskParts) (by : Instance) (s : PlanState) (times at n : ℕ) (e f : StepFail) → Breaks task s by times at e → Breaks task s by times n f → IsRefutal e → IsRefutal f → (at ≡ n) × (e ≡ f) }
    ensures passes { (task : TaskParts) (by : Instance) (s : PlanState) (times at : ℕ) (w : Wide) → Breaks task s by times at (fail.Wide w) → Passes w.op w.x w.y }
{}
