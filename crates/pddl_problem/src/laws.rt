//! A law of the definition that `read_problem` cites, as a function without a body whose contract states it.
ghost use Rattle.sexpr.specs.declared.tree.Tree.{Tree};
ghost use Rattle.pddl_form.specs.Laws.{HasOneSyntax};
ghost use Rattle.pddl_problem.specs.Problem.{problem_form};

/// A tree without a fault has one syntax as a problem.
pub fn one_problem()
    ensures { (tree : Tree) → HasOneSyntax (problem_form tree) }
{}
