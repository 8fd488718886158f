//! Laws of the ground task of a task. Each stands as a function with an empty body, whose clauses are the laws.
ghost use Rattle.std.specs.Prelude.{◌≡◌, ◌≤◌, ◌↔◌, ◌++◌, ℕ, true, not, List, [], length, slice_get, Some};
ghost use Rattle.std.specs.List.{list_all};
ghost use Rattle.pddl_task.specs.declared.action.Action.{Action};
ghost use Rattle.ground_numbers.specs.declared.named.Named.{Named};
ghost use Rattle.ground_numbers.specs.Numbers.{same, is_listed};
ghost use Rattle.ground_action.specs.Setting.{setting_of};
ghost use Rattle.ground_action.specs.Work.{instance_ops};
ghost use Rattle.ground_walk.specs.Sightings.{instance_atoms, instance_funcs};
ghost use Rattle.pddl_task.specs.Linear.{IsLinear};
ghost use Rattle.pddl_task.specs.declared.instance.Instance.{Instance};
ghost use Rattle.pddl_task.specs.declared.parts.TaskParts.{TaskParts};
ghost use Rattle.plan_step.specs.State.{PlanState, initial};
ghost use Rattle.plan_step.specs.Meaning.{all_hold, HasStep, Run};
ghost use Rattle.task_core.specs.State.{State};
ghost use Rattle.task_core.specs.Step.{Holds};
ghost use Rattle.task_core.specs.Task.{IsGroundTask, start, action_at};
ghost use Rattle.ground_walk.specs.Walk.{Kept, kept_instances};
ghost use Rattle.ground_laws.specs.Result.{task_from};
ghost use Rattle.ground_laws.specs.Laws.{instance_of, IsSeenAs, StepsTo, HasAction};

/// Where at most 1,000,000 instances are kept, the parts make a ground task.
#[tactic(auto, using(crate::proofs::ResultLaws::is_ground_task))]
pub fn parts_are_a_ground_task()
    ensures { (task : TaskParts) → length (kept_instances task) ≤ 1000000 → IsGroundTask (task_from task) }
{}

/// The initial state is seen as the start of the ground task.
#[tactic(auto, using(crate::proofs::StepLaws::start_seen))]
pub fn start_is_seen()
    ensures { (task : TaskParts) → IsSeenAs task (initial task) (start (task_from task)) }
{}

/// A step of a kept instance is the step of the action with its number, both ways.
#[tactic(auto, using(crate::proofs::StepLaws::step_is, crate::proofs::StepLaws::step_of))]
pub fn action_steps_as_its_instance()
    ensures to_ground { (task : TaskParts) → IsLinear task → (n : ℕ) (k : Kept) → slice_get (kept_instances task) n ≡ Some k
        → (s t : PlanState) (g : State) → IsSeenAs task s g → HasStep task s (instance_of k) t → StepsTo task n g t }
    ensures from_ground { (task : TaskParts) → IsLinear task → (n : ℕ) (k : Kept) → slice_get (kept_instances task) n ≡ Some k
        → (s : PlanState) (g : State) → IsSeenAs task s g → Holds (action_at (task_from task) n) g → (t : PlanState) × (HasStep task s (instance_of k) t × StepsTo task n g t) }
{}

/// Each instance that has a step in a state that a plan reaches is the instance of an action of the ground task.
#[tactic(auto, using(crate::proofs::StepLaws::step_stands))]
pub fn instance_with_step_has_its_action()
    ensures { (task : TaskParts) → IsLinear task → (s t : PlanState) (plan : List Instance) (by : Instance) → Run task (initial task) plan s → HasStep task s by t
        → HasAction task by }
{}

/// The goal holds exactly where the ground goal does.
#[tactic(auto, using(crate::proofs::StepLaws::goal_is))]
pub fn goal_holds_as_ground_goal()
    ensures { (task : TaskParts) → IsLinear task → (s : PlanState) (g : State) → IsSeenAs task s g → (all_hold s [] task.goal ≡ true) ↔ Holds (task_from task).goal g }
{}

/// The operations of an instance whose names have numbers stay the same, in their order, when more is numbered behind: so the walk
/// may work an instance out before all numbers are known.
pub fn more_numbers_change_no_operation()
    ensures { (task : TaskParts) (atoms more funcs later : List Named) → list_all (λ k. not (is_listed same atoms k)) more ≡ true → list_all (λ k. not (is_listed same funcs k)) later ≡ true
        → (a : Action) (args : List ℕ) → list_all (is_listed same atoms) (instance_atoms task a args) ≡ true → list_all (is_listed same funcs) (instance_funcs task a args) ≡ true
        → instance_ops (setting_of task (atoms ++ more) (funcs ++ later)) a args ≡ instance_ops (setting_of task atoms funcs) a args }
{}
