//! Laws: what follows from the definitions in `specs/`. Each stands as a function with an empty body, whose clauses are the
//! laws.
ghost use Rattle.std.specs.Prelude.{◌≡◌, ◌↔◌, ℕ, ◌<◌, List, length};
ghost use Rattle.std.specs.List.{AllByRecursion};
ghost use Rattle.task_core.specs.Task.{GroundParts, IsGroundTask};
ghost use Rattle.task_core.specs.Plan.{Reaches};
ghost use Rattle.formula.specs.declared.point.Point.{Point};
ghost use Rattle.formula.specs.Meets.{IsSolution};
ghost use Rattle.encode_laws.specs.Encoding.{items_of, formula_of};
ghost use Rattle.encode_laws.specs.Refusals.{operations_of};
ghost use Rattle.encode_laws.specs.Made.{made_from, nothing_made, named_from, contents_of};
ghost use Rattle.encode_laws.specs.Laws.{SpellsPlan};

/// The counts of each point that meets the formula of n copies spell a word of n copies that is a valid plan.
pub fn point_spells_plan()
    ensures { (task : GroundParts) (pattern : List ℕ) (n : ℕ) (p : Point) → AllByRecursion (λ a. a < length task.actions) pattern
        → IsSolution (formula_of task pattern n) p → SpellsPlan task pattern n p }
{}

/// The formula of n copies has a point that meets it exactly where some word of n copies is a valid plan.
pub fn point_where_reached()
    ensures { (task : GroundParts) (pattern : List ℕ) (n : ℕ) → IsGroundTask task → AllByRecursion (λ a. a < length task.actions) pattern
        → Reaches task pattern n ↔ ((p : Point) × IsSolution (formula_of task pattern n) p) }
{}

/// What is made item by item, with Booleans numbered as they come, is the formula of n copies, and the operations that are named
/// on the way, each with its row, are those of the formula.
pub fn made_item_by_item()
    ensures formula { (task : GroundParts) (pattern : List ℕ) (n : ℕ) → contents_of (made_from (items_of task pattern n) nothing_made) ≡ formula_of task pattern n }
    ensures operations { (task : GroundParts) (pattern : List ℕ) (n : ℕ) → named_from (items_of task pattern n) nothing_made ≡ operations_of task pattern n }
{}
