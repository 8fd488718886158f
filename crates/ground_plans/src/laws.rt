//! Laws of plans across grounding. Each stands as a function with an empty body, whose clauses are the laws.
ghost use Rattle.std.specs.Prelude.{◌≡◌, ◌<◌, ◌≤◌, ◌↔◌, ℕ, List, length};
ghost use Rattle.std.specs.List.{AllByRecursion};
ghost use Rattle.pddl_task.specs.Linear.{IsLinear};
ghost use Rattle.pddl_task.specs.declared.instance.Instance.{Instance};
ghost use Rattle.pddl_task.specs.declared.parts.TaskParts.{TaskParts};
ghost use Rattle.plan_step.specs.Meaning as instances;
ghost use Rattle.task_core.specs.Plan as ground_task;
ghost use Rattle.pattern.specs.Pattern.{IsPattern};
ghost use Rattle.ground_walk.specs.Walk.{kept_instances};
ghost use Rattle.ground_laws.specs.Result.{task_from};
ghost use Rattle.ground_plans.specs.Plans.{instances_at, ReachesGoal};

/// Numbers of ground actions are a valid plan of the ground task exactly where their instances are one of the task.
pub fn ground_plan_is_plan()
    ensures { (task : TaskParts) → IsLinear task → (word : List ℕ) → AllByRecursion (λ n. n < length (kept_instances task)) word
        → ground_task.IsValidPlan (task_from task) word ↔ instances.IsValidPlan task (instances_at task word) }
{}

/// Each valid plan is the instances of some numbers, which are a valid plan of the ground task.
pub fn plan_has_numbers()
    ensures { (task : TaskParts) → IsLinear task → (plan : List Instance) → instances.IsValidPlan task plan
        → (word : List ℕ) × (instances_at task word ≡ plan) × ground_task.IsValidPlan (task_from task) word }
{}

/// A word of n copies of these places reaches the goal of the task exactly where one reaches that of the ground task.
pub fn reaches_goal_as_ground()
    ensures { (task : TaskParts) (places : List ℕ) (n : ℕ) → IsLinear task → AllByRecursion (λ a. a < length (kept_instances task)) places
        → ReachesGoal task places n ↔ ground_task.Reaches (task_from task) places n }
{}

/// Each valid plan of at most n steps is a word of n copies of the pattern, which then reaches the goal.
pub fn every_plan_is_a_word()
    ensures { (task : TaskParts) (places : List ℕ) (n : ℕ) (plan : List Instance) → IsLinear task → length (kept_instances task) ≤ 1000000 → IsPattern (task_from task) places
        → instances.IsValidPlan task plan → length plan ≤ n → ReachesGoal task places n }
{}
