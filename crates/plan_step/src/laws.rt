//! Laws: what is evaluated in 128 bits is what the definitions without a bound say. Each stands as a function with an empty
//! body, whose clauses are the laws.
ghost use Rattle.std.specs.Prelude.{◌≡◌, ℕ, Bool, true, List, [], Some, None, Ok, Err};
ghost use Rattle.rational.specs.Fraction.{Fraction};
ghost use Rattle.pddl_task.specs.declared.expression.Expr.{Expr};
ghost use Rattle.plan_step.specs.State.{PlanState, initial};
ghost use Rattle.plan_step.specs.Met.{found, lacks, passes};
ghost use Rattle.plan_step.specs.Evaluation.{evaluated};
ghost use Rattle.pddl_task.specs.declared.instance.Instance.{Instance};
ghost use Rattle.pddl_task.specs.declared.parts.TaskParts.{TaskParts};
ghost use Rattle.pddl_task.specs.declared.condition.Cond.{Cond};
ghost use Rattle.plan_step.specs.Conditions.{goal_met};
ghost use Rattle.plan_step.specs.Step.{step_from};
ghost use Rattle.plan_step.specs.Meaning.{all_hold, value_of, HasStep, Run, IsValidPlan};
ghost use Rattle.frac128.specs.Operations.{Passes};
ghost use Rattle.frac128.specs.declared.operations.Wide.{Wide};
ghost use Rattle.plan_step.specs.Laws.{IsWide, IsRefutal, TellsWide, FailsOnly};
ghost use Rattle.plan_step.specs.Reasons.{FailsBy};
ghost use Rattle.plan_step.specs.declared.failure.StepFail.{StepFail};

/// An evaluation that finds a value finds the value, and one that meets a part without a value has none.
#[tactic(auto, using(crate::proofs::Meanings::found_is, crate::proofs::Meanings::lacks_is))]
pub fn evaluation_is_the_value()
    ensures value { (state : PlanState) (args : List ℕ) (e : Expr) (x : Fraction) → evaluated state args e ≡ found x → value_of state args e ≡ Some x }
    ensures none { (state : PlanState) (args : List ℕ) (e : Expr) → evaluated state args e ≡ lacks → value_of state args e ≡ None }
{}

/// A step that is made is a step.
#[tactic(auto, using(crate::proofs::StepLaws::step_has_step))]
pub fn made_step_is_a_step()
    ensures { (task : TaskParts) (old new : PlanState) (by : Instance) → step_from task old by ≡ Ok new → HasStep task old by new }
{}

/// An instance that has a step fails, if at all, because an operation passes 128 bits. So after each other failure but want
/// of memory it has none.
pub fn failed_step_is_none()
    ensures { (task : TaskParts) (old new : PlanState) (by : Instance) (e : StepFail) → HasStep task old by new → step_from task old by ≡ Err e → IsWide e }
{}

/// A step that fails has the reason that it tells. Where there is a reason, the step fails by it, unless an operation passes
/// 128 bits before; and the instance has no step.
pub fn failures_have_reasons()
    ensures reason { (task : TaskParts) (s : PlanState) (by : Instance) (e : StepFail) → step_from task s by ≡ Err e → FailsBy task s by e }
    ensures answered { (task : TaskParts) (s : PlanState) (by : Instance) (e : StepFail) → IsRefutal e → FailsBy task s by e → FailsOnly e (step_from task s by) }
    ensures none { (task : TaskParts) (s t : PlanState) (by : Instance) (e : StepFail) → IsRefutal e → FailsBy task s by e → HasStep task s by t → ⊥ }
{}

/// A step of an instance from a state ends in one state.
pub fn one_step_from_a_state()
    ensures { (task : TaskParts) (old s t : PlanState) (by : Instance) → HasStep task old by s → HasStep task old by t → s ≡ t }
{}

/// And so does a run.
#[tactic(auto, using(crate::proofs::RunLaws::one_run))]
pub fn one_run_from_a_state()
    ensures { (task : TaskParts) (plan : List Instance) (old s t : PlanState) → Run task old plan s → Run task old plan t → s ≡ t }
{}

/// What the test of a goal says is so.
pub fn tested_goal_holds()
    ensures { (state : PlanState) (conds : List Cond) (answer : Bool) → goal_met state conds ≡ Ok answer → all_hold state [] conds ≡ answer }
{}

/// The plan of no steps is valid exactly where the goal holds in the initial state.
pub fn plan_of_no_steps()
    ensures valid { (task : TaskParts) → all_hold (initial task) [] task.goal ≡ true → IsValidPlan task [] }
    ensures only_valid { (task : TaskParts) → IsValidPlan task [] → all_hold (initial task) [] task.goal ≡ true }
{}

/// An operation that an evaluation, a step or the test of a goal answers passes 128 bits; and the definitions
/// know nothing of memory.
#[tactic(auto, using(crate::proofs::WideLaws::wide_value, crate::proofs::WideLaws::wide_step, crate::proofs::WideLaws::wide_goal))]
pub fn answered_operation_passes()
    ensures value { (state : PlanState) (args : List ℕ) (e : Expr) (w : Wide) → evaluated state args e ≡ passes w → Passes w.op w.x w.y }
    ensures step { (task : TaskParts) (state : PlanState) (by : Instance) (e : StepFail) → step_from task state by ≡ Err e → TellsWide e }
    ensures goal { (state : PlanState) (conds : List Cond) (w : Wide) → goal_met state conds ≡ Err w → Passes w.op w.x w.y }
{}
