//! Laws: what the ground action of an instance is to the instance, and the ground goal to the goal. Each stands as a
//! function with an empty body, whose clauses are the laws. They speak of a task with numbered atoms and functions, and of a
//! state with the static part of the initial one, in which each function with an initial value has a value: so is each state
//! that a plan reaches.
ghost use Rattle.std.specs.Prelude.{◌≡◌, ◌↔◌, ℕ, true, List, []};
ghost use Rattle.pddl_task.specs.declared.action.Action.{Action};
ghost use Rattle.pddl_task.specs.declared.expression.Expr.{Expr};
ghost use Rattle.pddl_task.specs.declared.instance.Instance.{Instance};
ghost use Rattle.pddl_task.specs.declared.parts.TaskParts.{TaskParts};
ghost use Rattle.pddl_task.specs.Linear.{IsLinear};
ghost use Rattle.plan_step.specs.State.{PlanState, initial};
ghost use Rattle.plan_step.specs.Meaning.{all_hold, IsInstanceOf, HasStep, Run};
ghost use Rattle.task_core.specs.State.{State};
ghost use Rattle.task_core.specs.Step.{Holds, is_rollable};
ghost use Rattle.ground_numbers.specs.declared.named.Named.{Named};
ghost use Rattle.ground_action.specs.Setting.{Setting, setting_of};
ghost use Rattle.ground_action.specs.Parts.{part_of};
ghost use Rattle.ground_action.specs.Work.{work_of};
ghost use Rattle.ground_action.specs.GroundAction.{leaves_of, moves_of, ground_action, is_kept, is_numbered, goal_leaves, ground_goal};
ghost use Rattle.ground_action.specs.Agrees.{Fits, Agrees};
ghost use Rattle.ground_action.specs.Rolls.{rolls};
ghost use Rattle.ground_action.specs.Laws.{IsGroundStep};

/// The initial state and each one that is reached from it are such states.
#[tactic(auto, using(crate::proofs::FitsLaws::initial_fits, crate::proofs::FitsLaws::run_fits))]
pub fn reached_states_fit()
    ensures start { (task : TaskParts) (atoms funcs : List Named) → Fits (setting_of task atoms funcs) (initial task) }
    ensures run { (task : TaskParts) (atoms funcs : List Named) (s t : PlanState) (plan : List Instance)
        → Fits (setting_of task atoms funcs) s → Run task s plan t → Fits (setting_of task atoms funcs) t }
{}

/// An instance that has a step is kept.
pub fn instance_with_step_is_kept()
    ensures { (task : TaskParts) (atoms funcs : List Named) → IsLinear task → (by : Instance) (a : Action) → IsInstanceOf task by a
        → (s t : PlanState) → Fits (setting_of task atoms funcs) s → HasStep task s by t → is_kept (setting_of task atoms funcs) a by.args ≡ true }
{}

/// Whether it is kept, no number changes.
pub fn kept_needs_no_numbers()
    ensures { (task : TaskParts) (atoms funcs : List Named) (a : Action) (args : List ℕ) → is_kept (setting_of task [] []) a args ≡ is_kept (setting_of task atoms funcs) a args }
{}

/// The step of an instance is the step of its ground action, both ways.
#[tactic(auto, using(crate::proofs::TaskLaws::ground_to_step))]
pub fn step_is_ground_step()
    ensures to_ground { (task : TaskParts) (atoms funcs : List Named) → IsLinear task → (by : Instance) (a : Action) → IsInstanceOf task by a
        → is_numbered (setting_of task atoms funcs) (leaves_of (setting_of task atoms funcs) a by.args) (moves_of (setting_of task atoms funcs) a by.args) ≡ true
        → (s t : PlanState) (g : State) → Fits (setting_of task atoms funcs) s → Agrees (setting_of task atoms funcs) s g
        → HasStep task s by t → IsGroundStep (setting_of task atoms funcs) a by.args g t }
    ensures from_ground { (task : TaskParts) (atoms funcs : List Named) → IsLinear task → (by : Instance) (a : Action) → IsInstanceOf task by a
        → is_numbered (setting_of task atoms funcs) (leaves_of (setting_of task atoms funcs) a by.args) (moves_of (setting_of task atoms funcs) a by.args) ≡ true
        → (s : PlanState) (g : State) → Fits (setting_of task atoms funcs) s → Agrees (setting_of task atoms funcs) s g
        → is_kept (setting_of task atoms funcs) a by.args ≡ true → Holds (ground_action (setting_of task atoms funcs) a by.args) g
        → (t : PlanState) × (HasStep task s by t × IsGroundStep (setting_of task atoms funcs) a by.args g t) }
{}

/// The goal holds exactly where the ground goal does.
pub fn goal_is_ground_goal()
    ensures { (task : TaskParts) (atoms funcs : List Named) → IsLinear task → (s : PlanState) (g : State)
        → is_numbered (setting_of task atoms funcs) (goal_leaves (setting_of task atoms funcs) task.goal) [] ≡ true
        → Fits (setting_of task atoms funcs) s → Agrees (setting_of task atoms funcs) s g
        → (all_hold s [] task.goal ≡ true) ↔ Holds (ground_goal (setting_of task atoms funcs) task.goal) g }
{}

/// An instance is rollable exactly where its ground action is.
#[tactic(auto, using(crate::proofs::TaskLaws::rollable_is))]
pub fn rollable_is_rollable()
    ensures { (set : Setting) (a : Action) (args : List ℕ) → is_numbered set (leaves_of set a args) (moves_of set a args) ≡ true
        → rolls (leaves_of set a args) (moves_of set a args) ≡ is_rollable (ground_action set a args) }
{}

/// What is made of an expression, operation by operation, is its part.
#[tactic(auto, using(crate::proofs::WorkLaws::work_is))]
pub fn work_makes_the_part()
    ensures { (set : Setting) (args : List ℕ) (e : Expr) → (work_of set args e).outcome ≡ part_of set args e }
{}
