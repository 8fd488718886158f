//! Laws of the definitions that the contracts cite.
ghost use Rattle.std.specs.Prelude.{◌≡◌, ℕ, List};
ghost use Rattle.std.specs.List.{All};
ghost use Rattle.pddl_form.specs.Judged.{good};
ghost use Rattle.pddl_task.specs.declared.parts.TaskParts.{TaskParts};
ghost use Rattle.plan_form.specs.declared.plan.Part.{Part};
ghost use Rattle.plan_text.specs.PlanText.{Names, names_of, plan_judged, IsFirstFault};
ghost use Rattle.plan_form.specs.Printed.{IsPlanOf, plan_text};
ghost use Rattle.plan_text.specs.Laws.{AreSpelled, HasTextCount, IsLeastFault};

/// The fault that is answered has the least place of all faults of a text, and of those at its place the least kind.
pub fn first_fault_is_least()
    ensures { (names : Names) (bytes : List ℕ) (kind place : ℕ) → IsFirstFault names bytes kind place → IsLeastFault names bytes kind place }
{}

/// What is written of a plan is read as the plan, where the task's names can be told apart and no count is too great.
pub fn written_plan_is_read()
    ensures { (task : TaskParts) (plan : List Part) → AreSpelled (names_of task) → IsPlanOf task plan → All HasTextCount plan
        → plan_judged (names_of task) (plan_text task plan) ≡ good plan }
{}
