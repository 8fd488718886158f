//! Laws: what an outcome means in unlimited fractions. Each stands as a function with an empty body, whose clause is the law.
ghost use Rattle.std.specs.Prelude.{◌≡◌, Bool, List, Result};
ghost use Rattle.frac128.specs.declared.operations.Wide.{Wide};
ghost use Rattle.pddl_task.specs.declared.parts.TaskParts.{TaskParts};
ghost use Rattle.plan_form.specs.declared.plan.Part.{Part};
ghost use Rattle.plan_form.specs.Printed.{written_out};
ghost use Rattle.plan_step.specs.State.{PlanState, initial};
ghost use Rattle.plan_step.specs.Meaning.{Run};
ghost use Rattle.plan_step.specs.Laws.{IsRefutal};
ghost use Rattle.plan_judge.specs.Course.{IsFirstFailure, IsTested, ComesTo};
ghost use Rattle.plan_judge.specs.Written.{IsValid};
ghost use Rattle.plan_judge.specs.Laws.{SaysInvalid, IsDecided};
ghost use Rattle.plan_judge.specs.declared.outcome.Outcome.{Outcome};
ghost use Rattle.plan_judge.specs.declared.outcome.Outcome.TheVariants as outcome;
ghost use Rattle.plan_judge.specs.declared.outcome.PartFail.{PartFail};

/// A plan that is judged valid is valid.
pub fn valid_outcome_is_valid()
    ensures { (task : TaskParts) (plan : List Part) → ComesTo task plan outcome.Valid → IsValid task plan }
{}

/// A plan that is judged invalid isn't valid. What is left is an operation that passes 128 bits.
pub fn invalid_outcome_is_invalid()
    ensures { (task : TaskParts) (plan : List Part) (o : Outcome) → ComesTo task plan o → SaysInvalid o → IsValid task plan → ⊥ }
{}

/// Where the goal is tested, each run of the plan ends.
pub fn tested_state_is_the_end()
    ensures { (task : TaskParts) (plan : List Part) (answer : Result Bool Wide) (h : IsTested task plan answer) (t : PlanState) → Run task (initial task) (written_out plan) t → h.reached ≡ t }
{}

/// A plan with a part that is refuted has no run at all.
pub fn refuted_part_leaves_no_run()
    ensures { (task : TaskParts) (plan : List Part) (e : PartFail) (t : PlanState) → IsFirstFailure task plan e → IsRefutal e.fail.fail → Run task (initial task) (written_out plan) t → ⊥ }
{}

/// A plan comes to one outcome, operations that pass 128 bits aside.
pub fn decided_outcome_is_one()
    ensures { (task : TaskParts) (plan : List Part) (o q : Outcome) → ComesTo task plan o → ComesTo task plan q → IsDecided o → IsDecided q → o ≡ q }
{}
