//! What a task's instances are to its texts. The function does nothing: it stands for the law that it ensures.
ghost use Rattle.std.specs.Prelude.{◌≡◌, true};
ghost use Rattle.std.specs.List.{list_all};
ghost use Rattle.pddl_task.specs.declared.parts.TaskParts.{TaskParts};
ghost use Rattle.plan_form.specs.Printed.{is_call_of};
ghost use Rattle.ground_walk.specs.Walk.{kept_instances};
ghost use Rattle.ground_laws.specs.Laws.{instance_of};

/// Each kept instance is an action of the task with objects of the task, so it can be written.
pub fn kept_instances_are_calls()
    ensures { (task : TaskParts) → list_all (λ k. is_call_of task (instance_of k)) (kept_instances task) ≡ true }
{}
