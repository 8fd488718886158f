//! Laws of the definitions that the contracts cite.
ghost use Rattle.std.specs.Prelude.{◌≡◌, ◌↔◌, ℕ, List, None, Some};
ghost use Rattle.sexpr.specs.declared.tree.Tree.{Tree};
ghost use Rattle.pddl_form.specs.declared.fault.Fault.{Fault};
ghost use Rattle.pddl_form.specs.Faults.{least};
ghost use Rattle.pddl_form.specs.declared.names.Sort.{Sort};
ghost use Rattle.pddl_form.specs.declared.typed.Typed.{Typed};
ghost use Rattle.pddl_form.specs.Groups.{IsTypedList};
ghost use Rattle.pddl_form.specs.Judged.{good};
ghost use Rattle.pddl_form.specs.Laws.{IsFirstOf};
ghost use Rattle.pddl_form.specs.Typed.{typed_list};

/// The fault that counts has the least place of all, and of those at its place the least kind.
pub fn first_fault_is_least()
    ensures { (faults : List Fault) (first : Fault) → least None faults ≡ Some first → IsFirstOf faults first }
{}

/// A typed list has a syntax exactly where it is groups of items, each with its type, and items without a type at the end; and
/// its syntax is these items in order.
pub fn typed_list_is_groups()
    ensures { (sort : Sort) (end : ℕ) (trees : List Tree) (items : List Typed) → (typed_list sort end trees ≡ good items) ↔ IsTypedList sort trees items }
{}
