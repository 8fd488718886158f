//! Laws: what follows from the definitions in `specs/`. Each stands as a function with an empty body, whose clauses are the
//! laws.
ghost use Rattle.std.specs.Prelude.{◌≡◌, ℕ, ◌<◌, ◌≤◌, List, length, Contains};
ghost use Rattle.task_core.specs.State.{State};
ghost use Rattle.task_core.specs.Step.{Holds};
ghost use Rattle.task_core.specs.Task.{GroundParts, action_at, IsGroundTask};
ghost use Rattle.task_core.specs.Words.{IsWord};
ghost use Rattle.task_core.specs.Plan.{rolls, IsValidPlan, Reaches};
ghost use Rattle.pattern.specs.Pattern.{IsPattern};
ghost use Rattle.pattern.specs.Reachable.{IsReachable};

/// A task has one pattern.
pub fn one_pattern()
    ensures { (task : GroundParts) (ps qs : List ℕ) → IsPattern task ps → IsPattern task qs → ps ≡ qs }
{}

/// An action that has its step in a reachable state stands in the pattern.
pub fn reachable_step_is_in_pattern()
    ensures { (task : GroundParts) (ps : List ℕ) (s : State) (a : ℕ) → IsGroundTask task → IsPattern task ps → IsReachable task s
        → a < length task.actions → Holds (action_at task a) s → Contains ps a }
{}

/// So a valid plan of at most n steps is a word of n copies of the pattern, which then reaches the goal.
pub fn plan_is_word_of_pattern()
    ensures word { (task : GroundParts) (ps plan : List ℕ) (n : ℕ) → IsGroundTask task → IsPattern task ps → IsValidPlan task plan
        → length plan ≤ n → IsWord (rolls task) ps n plan }
    ensures reaches { (task : GroundParts) (ps plan : List ℕ) (n : ℕ) → IsGroundTask task → IsPattern task ps → IsValidPlan task plan
        → length plan ≤ n → Reaches task ps n }
{}
