//! Whether a ground task has numbers in its actions or in its goal.
ghost use Rattle.std.specs.Prelude.{◌≡◌};
ghost use Rattle.std.specs.List.{list_all};
ghost use Rattle.plain_formula.specs.Plain as plain;

use lin::{Cmp, Lin};
use task_core::{GAction, GroundTask};

fn is_plain(a: &GAction) -> bool
    ensures { result ≡ plain.is_plain a.now }
{
    a.cmps.is_empty() && a.sets.is_empty() && a.incs.is_empty()
}

fn is_constant(comparison: &(Lin, Cmp)) -> bool
    ensures { result ≡ plain.is_constant comparison.now }
{
    comparison.0.terms() == 0
}

fn is_plain_goal(goal: &GAction) -> bool
    ensures { result ≡ plain.is_plain_goal goal.now }
{
    goal.cmps.as_slice().iter().all(|c| is_constant(c))
}

fn are_plain(actions: &[GAction]) -> bool
    ensures { result ≡ list_all plain.is_plain actions.now }
{
    actions.iter().all(|a| is_plain(a))
}

/// Whether no action compares, sets or increases a number, and the goal compares constants at most.
pub fn is_plain_task(task: &GroundTask) -> bool
    ensures { result ≡ plain.is_plain_task task.now }
{
    is_plain_goal(task.goal()) && are_plain(task.actions())
}
