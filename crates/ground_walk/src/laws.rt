//! Laws of the walk. Each stands as a function with an empty body, whose clauses are the laws.
ghost use Rattle.std.specs.Prelude.{◌≡◌, ℕ, true, List, [], slice_get, Some, filter, length};
ghost use Rattle.pddl_task.specs.declared.action.Action.{Action};
ghost use Rattle.pddl_task.specs.declared.instance.Instance.{Instance};
ghost use Rattle.pddl_task.specs.declared.parts.TaskParts.{TaskParts};
ghost use Rattle.plan_step.specs.Meaning.{all_fit, IsInstanceOf};
ghost use Rattle.ground_action.specs.Setting.{setting_of};
ghost use Rattle.ground_action.specs.GroundAction.{leaves_of, moves_of, is_kept, is_numbered, goal_leaves};
ghost use Rattle.ground_instances.specs.ArgumentLists.{lists_below};
ghost use Rattle.ground_walk.specs.Walk.{Kept, kept_of_action, kept_instances, atoms_of, funcs_of};

/// The kept instances of an action are all lists of objects that fit, in rising order, without those that are not kept: that
/// a list is passed over by a static literal or an equality drops nothing.
#[tactic(auto, using(crate::proofs::KeptLaws::kept_are_all))]
pub fn all_kept_are_gone_through()
    ensures { (task : TaskParts) (a : Action) → kept_of_action task a
        ≡ filter (is_kept (setting_of task [] []) a) (filter (all_fit task a.params) (lists_below (length task.objects) (length a.params))) }
{}

/// An instance that is kept stands among the kept instances; so does each that has a step in a state that a plan reaches, since
/// it is kept.
pub fn kept_instance_stands()
    ensures { (task : TaskParts) (by : Instance) (a : Action) → IsInstanceOf task by a → is_kept (setting_of task [] []) a by.args ≡ true
        → (n : ℕ) × (slice_get (kept_instances task) n ≡ Some (record { number = by.action; action = a; args = by.args })) }
{}

/// Each changing atom and function that a kept instance names has a number.
pub fn kept_instances_are_numbered()
    ensures { (task : TaskParts) (n : ℕ) (k : Kept) → slice_get (kept_instances task) n ≡ Some k
        → is_numbered (setting_of task (atoms_of task) (funcs_of task)) (leaves_of (setting_of task (atoms_of task) (funcs_of task)) k.action k.args) (moves_of (setting_of task (atoms_of task) (funcs_of task)) k.action k.args) ≡ true }
{}

/// And each that the goal names.
pub fn goal_is_numbered()
    ensures { (task : TaskParts) → is_numbered (setting_of task (atoms_of task) (funcs_of task)) (goal_leaves (setting_of task (atoms_of task) (funcs_of task)) task.goal) [] ≡ true }
{}
