//! Laws of the definitions that the crates below cite.
ghost use Rattle.std.specs.Prelude.{◌≡◌, ℕ, List};
ghost use Rattle.std.specs.List.{All};
ghost use Rattle.pddl_form.specs.Judged.{good};
ghost use Rattle.pddl_task.specs.declared.parts.TaskParts.{TaskParts};
ghost use Rattle.plan_form.specs.declared.plan.Part.{Part};
ghost use Rattle.plan_text.specs.PlanText.{names_of, plan_judged};
ghost use Rattle.plan_form.specs.Printed.{IsPlanOf, plan_text};
ghost use Rattle.plan_text.specs.Laws.{AreSpelled, HasTextCount};
ghost use Rattle.patty_run.specs.Tasks.{IsTask};

/// In the task of two texts the names of the actions are spelled as texts spell names, and each is there once; and so are
/// those of the objects.
pub fn task_names_are_spelled()
    ensures { (domain problem : List ℕ) (task : TaskParts) → IsTask domain problem task → AreSpelled (names_of task) }
{}

/// What is written of a plan for the task of two texts is read as the plan, where each count is one that a text may have.
pub fn plan_of_task_is_read()
    ensures { (domain problem : List ℕ) (task : TaskParts) (plan : List Part) → IsTask domain problem task → IsPlanOf task plan → All HasTextCount plan
        → plan_judged (names_of task) (plan_text task plan) ≡ good plan }
{}
