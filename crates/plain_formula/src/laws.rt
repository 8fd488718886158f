//! Laws: what follows from the definitions in `specs/`. Each stands as a function with an empty body, whose clauses are the
//! laws.
ghost use Rattle.std.specs.Prelude.{◌≡◌, ℕ, true, List, Some, slice_get};
ghost use Rattle.formula.specs.declared.atom.Atom.{Atom};
ghost use Rattle.task_core.specs.Task.{GroundParts};
ghost use Rattle.encode_laws.specs.Encoding.{formula_of};
ghost use Rattle.plain_formula.specs.Plain.{is_plain_task};

/// Each Boolean in the formula of n copies of a pattern is a truth variable, where the task has no numbers.
pub fn plain_formula_has_no_atom()
    ensures { (task : GroundParts) (pattern : List ℕ) (n b : ℕ) (a : Atom) → is_plain_task task ≡ true
        → slice_get (formula_of task pattern n).atoms b ≡ Some (Some a) → ⊥ }
{}
