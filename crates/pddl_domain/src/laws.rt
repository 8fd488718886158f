//! Laws of the definitions that the contracts cite: what the lists of a domain are in the grammar's words.
ghost use Rattle.std.specs.Prelude.{◌≡◌, ◌↔◌, ℕ, List};
ghost use Rattle.sexpr.specs.declared.tree.Tree.{Tree};
ghost use Rattle.pddl_form.specs.Judged.{good};
ghost use Rattle.pddl_domain.specs.declared.action.Part.{Part};
ghost use Rattle.pddl_domain.specs.declared.head.Head.{Head};
ghost use Rattle.pddl_domain.specs.Action.{no_keys, parts_behind};
ghost use Rattle.pddl_domain.specs.FunctionGroups.{IsFunctionList};
ghost use Rattle.pddl_domain.specs.Heads.{functions};
ghost use Rattle.pddl_domain.specs.KeyValues.{AreKeysAndValues};

/// A list of functions has a syntax exactly where it is groups of functions, each group with `- number` behind it, and functions
/// without it at the end; and its syntax is these functions in order.
pub fn functions_are_groups()
    ensures { (end : ℕ) (trees : List Tree) (funcs : List Head) → (functions end trees ≡ good funcs) ↔ IsFunctionList trees funcs }
{}

/// What stands behind an action's name has a syntax exactly where it is keys, each once, with their values in turn; and its
/// syntax is that of these values in order.
pub fn parts_stand_in_turn()
    ensures { (end : ℕ) (trees : List Tree) (parts : List Part) → (parts_behind end no_keys trees ≡ good parts) ↔ AreKeysAndValues trees parts }
{}
