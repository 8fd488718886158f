//! Laws: what follows from the definitions in `specs/`. Each stands as a function with an empty body, whose clauses are the
//! laws.
ghost use Rattle.std.specs.Prelude.{◌≡◌, ℕ, suc, ◌<◌, ◌≤◌, Bool, true, List, length, replicate, pos};
ghost use Rattle.rational.specs.Fraction.{Fraction, whole, ◌+ℚ◌, ◌*ℚ◌};
ghost use Rattle.rational.specs.Linear.{Terms};
ghost use Rattle.lin.specs.Linear.{Linear, value_of};
ghost use Rattle.lin.specs.declared.comparison.Cmp.{Cmp};
ghost use Rattle.task_core.specs.declared.action.GAction.{GAction};
ghost use Rattle.task_core.specs.State.{State, ComparesToZero, ComparisonHolds};
ghost use Rattle.task_core.specs.Step.{LiteralsHold, ComparisonsHold, Holds, after, is_rollable};
ghost use Rattle.task_core.specs.Task.{GroundParts, action_at, has_value, IsDefined, IsGroundTask};
ghost use Rattle.task_core.specs.Words.{IsWord};
ghost use Rattle.task_core.specs.Plan.{Run, Reaches};
ghost use Rattle.task_core.specs.Growth.{grown, change_of};
ghost use Rattle.task_core.specs.Rolling.{repeated, rolled};

/// Where increments are made again and again, the value of a linear expression changes by the same amount each time.
pub fn value_changes_evenly()
    ensures { (incs : Terms) (n : ℕ) (old : ℕ → Fraction) (l : Linear)
        → value_of (grown incs n old) l ≡ value_of old l +ℚ whole (pos n) *ℚ change_of incs l.terms }
{}

/// So a comparison that holds before the first and after the last of them holds all the time.
pub fn comparison_holds_between()
    ensures { (incs : Terms) (m n : ℕ) (old : ℕ → Fraction) (l : Linear) (c : Cmp) → m ≤ n
        → ComparesToZero c (value_of old l) → ComparesToZero c (value_of (grown incs n old) l) → ComparesToZero c (value_of (grown incs m old) l) }
{}

/// The law of rolling. Where a rollable action is repeated, its literals hold at each repetition if they hold at the first;
/// a comparison holds at each repetition if it holds at the first and at the last; and the state is that of one step and
/// the increments of the others.
pub fn rolling()
    ensures literals { (a : GAction) (s : State) (n : ℕ) → is_rollable a ≡ true
        → LiteralsHold s a.lits → LiteralsHold (repeated n a s) a.lits }
    ensures comparisons { (a : GAction) (s : State) (m n : ℕ) (c : Linear × Cmp) → is_rollable a ≡ true → m ≤ n
        → ComparisonHolds s c → ComparisonHolds (repeated n a s) c → ComparisonHolds (repeated m a s) c }
    ensures state { (a : GAction) (s : State) (n : ℕ) → is_rollable a ≡ true → repeated n a s ≡ rolled n a s }
{}

/// So a rollable action has one step and n more exactly where it has the first, and its comparisons hold at the last.
pub fn rollable_action_runs()
    ensures runs { (a : GAction) (s : State) (n : ℕ) → is_rollable a ≡ true
        → Holds a s → ComparisonsHold (rolled n a s) a.cmps → Run s (replicate (suc n) a) (rolled (suc n) a s) }
    ensures only { (a : GAction) (s t : State) (n : ℕ) → is_rollable a ≡ true → Run s (replicate (suc n) a) t
        → Holds a s × ComparisonsHold (rolled n a s) a.cmps × (rolled (suc n) a s ≡ t) }
{}

/// A word of n copies is a word of one copy more, and so is one that reaches the goal.
pub fn word_of_more_copies()
    ensures word { (rolls : ℕ → Bool) (pattern word : List ℕ) (n : ℕ) → IsWord rolls pattern n word → IsWord rolls pattern (suc n) word }
    ensures reaches { (task : GroundParts) (pattern : List ℕ) (n : ℕ) → Reaches task pattern n → Reaches task pattern (suc n) }
{}

/// A run of some actions from a state ends in one state.
pub fn one_run_from_a_state()
    ensures { (actions : List GAction) (s t u : State) → Run s actions t → Run s actions u → t ≡ u }
{}

/// Where an action of a ground task has its step, or its goal holds, each function that is read has a value; and what has a
/// value keeps one.
pub fn values_are_there()
    ensures action { (task : GroundParts) (n : ℕ) (s : State) → IsGroundTask task → n < length task.actions
        → Holds (action_at task n) s → IsDefined task (action_at task n) s }
    ensures goal { (task : GroundParts) (s : State) → IsGroundTask task → Holds task.goal s → IsDefined task task.goal s }
    ensures stays { (task : GroundParts) (n f : ℕ) (s : State) → IsGroundTask task → n < length task.actions
        → has_value task s f ≡ true → has_value task (after (action_at task n) s) f ≡ true }
{}
