//! Laws: what follows from the definitions in `specs/`. Each stands as a function with an empty body, whose clauses are the
//! laws.
ghost use Rattle.std.specs.Prelude.{◌≡◌, ℕ, ◌<◌, ◌≤◌, ◌+◌, true, List, length, map, slice_index};
ghost use Rattle.std.specs.List.{AllByRecursion};
ghost use Rattle.task_core.specs.declared.action.GAction.{GAction};
ghost use Rattle.task_core.specs.State.{State};
ghost use Rattle.task_core.specs.Step.{Holds, after};
ghost use Rattle.task_core.specs.Task.{GroundParts, start, action_at, IsGroundTask};
ghost use Rattle.task_core.specs.Plan.{Run};
ghost use Rattle.relaxed.specs.Layers.{Layer, first_layer, next_layer, layer, is_supported, EndsAt};
ghost use Rattle.relaxed.specs.InLayer.{InLayer};

/// Where a ground state lies in a layer, an action that has its step there is supported by the layer, and the state after
/// the step lies in the next one. The start lies in layer 0.
pub fn step_stays_inside()
    ensures start { (task : GroundParts) → InLayer task (first_layer task) (start task) }
    ensures supported { (task : GroundParts) (y : Layer) (s : State) (n : ℕ) → IsGroundTask task → n < length task.actions
        → InLayer task y s → Holds (action_at task n) s → is_supported y (action_at task n) ≡ true }
    ensures next { (task : GroundParts) (y : Layer) (s : State) (n : ℕ) → IsGroundTask task → n < length task.actions
        → InLayer task y s → Holds (action_at task n) s → InLayer task (next_layer task y) (after (action_at task n) s) }
{}

/// So the step with number i of a run from the start is by an action that layer i supports.
pub fn run_is_supported()
    ensures { (task : GroundParts) (plan : List ℕ) (t : State) (i : ℕ) → IsGroundTask task
        → AllByRecursion (λ n. n < length task.actions) plan → Run (start task) (map (action_at task) plan) t → i < length plan
        → is_supported (layer task i) (action_at task (slice_index plan i)) ≡ true }
{}

/// Layers end: some layer is the same as the next, and so as each later one.
pub fn layers_end()
    ensures end { (task : GroundParts) → IsGroundTask task → (e : ℕ) × EndsAt task e }
    ensures later { (task : GroundParts) (e n : ℕ) → EndsAt task e → layer task (n + e) ≡ layer task e }
{}

/// What a layer supports, each later one supports, and the last one supports what any layer does.
pub fn support_stays()
    ensures later { (task : GroundParts) (a : GAction) (m n : ℕ) → m ≤ n → is_supported (layer task m) a ≡ true → is_supported (layer task n) a ≡ true }
    ensures end { (task : GroundParts) (a : GAction) (e n : ℕ) → EndsAt task e → is_supported (layer task n) a ≡ true → is_supported (layer task e) a ≡ true }
{}
