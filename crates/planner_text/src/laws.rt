//! Laws: what a text says of plans. Each stands as a function with an empty body, whose clauses are the laws.
ghost use Rattle.std.specs.Prelude.{◌≡◌, ◌<◌, ◌≤◌, ℕ, List, length};
ghost use Rattle.pddl_task.specs.declared.instance.Instance.{Instance};
ghost use Rattle.pddl_task.specs.declared.parts.TaskParts.{TaskParts};
ghost use Rattle.pddl_task.specs.Linear.{IsLinear};
ghost use Rattle.plan_form.specs.declared.plan.Part.{Part};
ghost use Rattle.plan_form.specs.Printed.{written_out};
ghost use Rattle.plan_step.specs.Meaning.{IsValidPlan};
ghost use Rattle.ground_plans.specs.Plans.{ReachesGoal};
ghost use Rattle.farkas_law.specs.Lemma.{IsShown};
ghost use Rattle.theory_law.specs.Log.{IsSoundLog};
ghost use Rattle.planner_text.specs.declared.limits.Limits.{Limits};
ghost use Rattle.planner_text.specs.Text.{Log, Block, refuted, found, unknown, steps_spent, layered, formula_for, AreRefuted, IsText};
ghost use Rattle.planner_text.specs.inside.Known.{Known};
ghost use Rattle.pattern.specs.Pattern.{IsPattern};
ghost use Rattle.ground_walk.specs.Walk.{kept_instances};
ghost use Rattle.ground_laws.specs.Result.{task_from};

use encode_laws::laws::point_where_reached;
use farkas_law::shown_lemma_holds;
use ground_laws::laws::parts_are_a_ground_task;
use ground_plans::laws::{every_plan_is_a_word, reaches_goal_as_ground};

/// Where blocks are refuted, no word of so many copies is a valid plan: what the laws below are made of.
fn refuted_blocks_refute()
    ensures { (task : TaskParts) (limits : Limits) (places : List ℕ) (before : List Log) (last : Block) → IsLinear task → IsText task limits (layered places before last) → Known task places }
{
    shown_lemma_holds();
    reaches_goal_as_ground();
    parts_are_a_ground_task();
    point_where_reached();
}

/// A plan that a text has is valid, and a word of as many copies of the pattern as blocks are refuted before it; no word of fewer
/// copies is a valid plan.
pub fn plan_is_least()
    ensures valid { (task : TaskParts) (limits : Limits) (places : List ℕ) (before : List Log) (last : Block) (plan : List Part) → IsText task limits (layered places before last)
        → last.end ≡ found plan → IsValidPlan task (written_out plan) }
    ensures reached { (task : TaskParts) (limits : Limits) (places : List ℕ) (before : List Log) (last : Block) (plan : List Part) → IsText task limits (layered places before last)
        → last.end ≡ found plan → ReachesGoal task places (length before) }
    ensures least { (task : TaskParts) (limits : Limits) (places : List ℕ) (before : List Log) (last : Block) → IsLinear task → IsText task limits (layered places before last)
        → (n : ℕ) → n < length before → ReachesGoal task places n → ⊥ }
{
    refuted_blocks_refute();
}

/// Where the last block is refuted, no word of as many copies as are allowed is a valid plan, and there is no valid plan of at
/// most so many steps.
pub fn none_is_reached()
    ensures words { (task : TaskParts) (limits : Limits) (places : List ℕ) (before : List Log) (last : Block) → IsLinear task → IsText task limits (layered places before last)
        → last.end ≡ refuted → (n : ℕ) → n ≤ limits.max_n → ReachesGoal task places n → ⊥ }
    ensures plans { (task : TaskParts) (limits : Limits) (places : List ℕ) (before : List Log) (last : Block) → IsLinear task → IsText task limits (layered places before last)
        → last.end ≡ refuted → (plan : List Instance) → length plan ≤ limits.max_n → IsValidPlan task plan → ⊥ }
{
    refuted_blocks_refute();
    every_plan_is_a_word();
}

/// Behind refuted blocks and a sound log that isn't too long, a text can be left open: so each text that was begun is a front of
/// some text.
pub fn block_can_be_left_open()
    ensures { (task : TaskParts) (limits : Limits) (places : List ℕ) (before : List Log) (log : Log) → length (kept_instances task) ≤ 1000000 → IsPattern (task_from task) places
        → AreRefuted task limits places 0 before → length before ≤ limits.max_n → IsSoundLog IsShown (formula_for task places (length before)) log → length log ≤ limits.steps
        → IsText task limits (layered places before (record { log = log; end = unknown steps_spent })) }
{}
