//! Laws of the definitions that the contracts cite.
ghost use Rattle.std.specs.Prelude.{◌≡◌, ℕ, List, ◌∷◌, true};
ghost use Rattle.sexpr.specs.declared.tree.Tree.{Tree};
ghost use Rattle.pddl_form.specs.declared.names.Sort.{Sort};
ghost use Rattle.pddl_form.specs.Laws.{HasOneSyntax};
ghost use Rattle.pddl_condition.specs.Condition.{condition_form, is_unread_negation, negated, negation, not_read, negated_atom};
ghost use Rattle.pddl_condition.specs.Expression.{expression_form};

/// A tree without a fault has one syntax as a condition.
pub fn one_condition()
    ensures { (tree : Tree) → HasOneSyntax (condition_form tree) }
{}

/// A tree without a fault has one syntax as an expression.
pub fn one_expression()
    ensures { (tree : Tree) → HasOneSyntax (expression_form tree) }
{}

/// A `not` that isn't read is the one fault of its list, whatever stands behind the tree.
pub fn unread_not_is_one_fault()
    ensures of_conditions { (start end : ℕ) (word tree : Tree) (more : List Tree) → is_unread_negation tree ≡ true → negation (negated word) start end (tree ∷ more) ≡ not_read word }
    ensures of_atoms { (sort : Sort) (start end : ℕ) (word tree : Tree) (more : List Tree) → is_unread_negation tree ≡ true → negation (negated_atom sort word) start end (tree ∷ more) ≡ not_read word }
{}
