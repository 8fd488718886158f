//! Laws across grounding, each in both directions. Each stands as a function with an empty body, whose clauses are the laws.
ghost use Rattle.std.specs.Prelude.{◌≡◌, ◌<◌, ◌↔◌, ℕ, true, List, [], map, length, slice_get, Some};
ghost use Rattle.std.specs.List.{AllByRecursion};
ghost use Rattle.pddl_task.specs.Linear.{IsLinear};
ghost use Rattle.pddl_task.specs.declared.action.Action.{Action};
ghost use Rattle.pddl_task.specs.declared.instance.Instance.{Instance};
ghost use Rattle.pddl_task.specs.declared.parts.TaskParts.{TaskParts};
ghost use Rattle.plan_step.specs.State.{PlanState};
ghost use Rattle.plan_step.specs.Meaning.{IsInstanceOf, HasStep, Run};
ghost use Rattle.plan_repeat.specs.Rolling.{IsRollable};
ghost use Rattle.task_core.specs.State.{State};
ghost use Rattle.task_core.specs.Step.{is_rollable};
ghost use Rattle.task_core.specs.Task.{action_at};
ghost use Rattle.task_core.specs.Plan as ground_task;
ghost use Rattle.ground_action.specs.Setting.{setting_of};
ghost use Rattle.ground_action.specs.GroundAction.{is_kept};
ghost use Rattle.ground_walk.specs.Walk.{Kept, kept_instances};
ghost use Rattle.ground_laws.specs.Result.{task_from};
ghost use Rattle.ground_laws.specs.Laws.{instance_of, IsSeenAs, HasAction};
ghost use Rattle.ground_plans.specs.Plans.{instances_at};

/// An instance has an action of the ground task exactly where it is kept; and what has one is an instance of an action.
pub fn kept_exactly()
    ensures kept { (task : TaskParts) (by : Instance) (a : Action) → IsInstanceOf task by a → (is_kept (setting_of task [] []) a by.args ≡ true) ↔ HasAction task by }
    ensures instance { (task : TaskParts) (by : Instance) → HasAction task by → (a : Action) × IsInstanceOf task by a }
{}

/// Kept instances have a run exactly where their ground actions do, to states that agree.
pub fn runs_as_ground()
    ensures to_ground { (task : TaskParts) → IsLinear task → (word : List ℕ) → AllByRecursion (λ n. n < length (kept_instances task)) word → (s t : PlanState) (g : State) → IsSeenAs task s g
        → Run task s (instances_at task word) t → (h : State) × ground_task.Run g (map (action_at (task_from task)) word) h × IsSeenAs task t h }
    ensures from_ground { (task : TaskParts) → IsLinear task → (word : List ℕ) → AllByRecursion (λ n. n < length (kept_instances task)) word → (s : PlanState) (g h : State) → IsSeenAs task s g
        → ground_task.Run g (map (action_at (task_from task)) word) h → (t : PlanState) × Run task s (instances_at task word) t × IsSeenAs task t h }
{}

/// A kept instance that has a step rolls exactly where the ground action with its number does.
pub fn rollable_as_ground()
    ensures { (task : TaskParts) → IsLinear task → (n : ℕ) (k : Kept) → slice_get (kept_instances task) n ≡ Some k
        → (s t : PlanState) (g : State) → IsSeenAs task s g → (h : HasStep task s (instance_of k) t)
        → IsRollable task h.action k.args h.changes ↔ (is_rollable (action_at (task_from task) n) ≡ true) }
{}
