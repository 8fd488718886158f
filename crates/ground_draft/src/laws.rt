//! Laws: a draft becomes the ground action once all atoms are known. Each stands as a function with an empty body, whose
//! clauses are the laws.
ghost use Rattle.std.specs.Prelude.{◌≡◌, ℕ, true, List, [], length};
ghost use Rattle.pddl_task.specs.declared.action.Action.{Action};
ghost use Rattle.pddl_task.specs.declared.condition.Cond.{Cond};
ghost use Rattle.pddl_task.specs.declared.parts.TaskParts.{TaskParts};
ghost use Rattle.plan_step.specs.State.{PlanState};
ghost use Rattle.ground_numbers.specs.declared.named.Named.{Named};
ghost use Rattle.ground_action.specs.Setting.{setting_from};
ghost use Rattle.ground_action.specs.GroundAction.{leaves_of, moves_of, ground_action, is_numbered, goal_leaves, ground_goal};
ghost use Rattle.ground_draft.specs.Drafts.{draft_of, goal_draft_of, rank_in, finished};

/// A draft is finished by the number of atoms and by the rank of each function among those without an initial value.
#[tactic(auto, using(crate::proofs::Finishing::action_finished))]
pub fn finished_draft_is_ground_action()
    ensures action { (task : TaskParts) (start : PlanState) (atoms funcs : List Named) (a : Action) (args : List ℕ)
        → is_numbered (setting_from task start atoms funcs) (leaves_of (setting_from task start atoms funcs) a args) (moves_of (setting_from task start atoms funcs) a args) ≡ true
        → finished (length atoms) (rank_in start funcs) (draft_of (setting_from task start atoms funcs) atoms a args) ≡ ground_action (setting_from task start atoms funcs) a args }
    ensures goal { (task : TaskParts) (start : PlanState) (atoms funcs : List Named) (goal : List Cond)
        → is_numbered (setting_from task start atoms funcs) (goal_leaves (setting_from task start atoms funcs) goal) [] ≡ true
        → finished (length atoms) (rank_in start funcs) (goal_draft_of (setting_from task start atoms funcs) atoms goal) ≡ ground_goal (setting_from task start atoms funcs) goal }
{}
