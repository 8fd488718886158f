//! Ground tasks of parts that are tested. Begin with `checked_task`.
ghost use Rattle.std.specs.Prelude.{◌≡◌, ◌-◌, ◌<◌, ◌≤◌, true, length, IfSome};
ghost use Rattle.std.specs.List.{All};
ghost use Rattle.task_core.specs.Task.{missing, read_by, IsNumbered, IsTest, IsGroundTask};
ghost use Rattle.ground_check.specs.inside.Parts.{parts_of, IsActionIn};

use crate::numbered::{are_below, literals_are_below, reads_below, targets_are_below};
use crate::orderly::{is_orderly, is_test};
use crate::values::{are_false, missing, tells_of_all};
use frac128::Frac;
use task_core::{GAction, GroundTask};

fn has_atoms_below(atoms: u64, a: &GAction) -> bool
    ensures lits { result ≡ true → All (λ l. l.0 < atoms) a.now.lits }
    ensures adds { result ≡ true → All (λ p. p < atoms) a.now.adds }
    ensures dels { result ≡ true → All (λ p. p < atoms) a.now.dels }
{
    literals_are_below(atoms, a)
        && (are_below(atoms, a.adds.as_slice()) && are_below(atoms, a.dels.as_slice()))
}

fn has_functions_below(funcs: u64, a: &GAction) -> bool
    ensures reads { result ≡ true → All (λ f. f < funcs) (read_by a.now) }
    ensures sets { result ≡ true → All (λ s. s.0 < funcs) a.now.sets }
{
    reads_below(funcs, a) && targets_are_below(funcs, a)
}

fn is_numbered(atoms: &[bool], funcs: &[Option<Frac>], a: &GAction) -> bool
    ensures { result ≡ true → IsNumbered (parts_of atoms.now funcs.now) a.now }
{
    has_atoms_below(atoms.len() as u64, a) && has_functions_below(funcs.len() as u64, a)
}

fn is_action(atoms: &[bool], funcs: &[Option<Frac>], first: usize, a: &GAction) -> bool
    requires fit { missing funcs.now ≤ length atoms.now }
    requires first { first ≡ length atoms.now - missing funcs.now }
    ensures { result ≡ true → IsActionIn atoms.now funcs.now a.now }
{
    is_numbered(atoms, funcs, a) && (is_orderly(a) && tells_of_all(first, funcs, a))
}

fn are_actions(atoms: &[bool], funcs: &[Option<Frac>], first: usize, actions: &[GAction]) -> bool
    requires fit { missing funcs.now ≤ length atoms.now }
    requires first { first ≡ length atoms.now - missing funcs.now }
    ensures { result ≡ true → All (IsActionIn atoms.now funcs.now) actions.now }
{
    actions.iter().all(|a| is_action(atoms, funcs, first, a))
}

fn is_goal(atoms: &[bool], funcs: &[Option<Frac>], first: usize, goal: &GAction) -> bool
    requires fit { missing funcs.now ≤ length atoms.now }
    requires first { first ≡ length atoms.now - missing funcs.now }
    ensures action { result ≡ true → IsActionIn atoms.now funcs.now goal.now }
    ensures test { result ≡ true → IsTest goal.now }
{
    is_action(atoms, funcs, first, goal) && is_test(goal)
}

/// Whether these parts make a ground task.
pub fn is_ground_task(
    atoms: &[bool],
    funcs: &[Option<Frac>],
    actions: &[GAction],
    goal: &GAction,
) -> bool
    ensures { result ≡ true → IsGroundTask (record { atoms = atoms.now; funcs = funcs.now; actions = actions.now; goal = goal.now }) }
{
    let missing = missing(funcs);
    if missing > atoms.len() || actions.len() > 1_000_000 {
        return false;
    }
    let first = atoms.len() - missing;
    are_false(&atoms[first..])
        && (are_actions(atoms, funcs, first, actions) && is_goal(atoms, funcs, first, goal))
}

/// The task of these parts, where they make one.
pub fn checked_task(
    atoms: Vec<bool>,
    funcs: Vec<Option<Frac>>,
    actions: Vec<GAction>,
    goal: GAction,
) -> Option<GroundTask>
    ensures { IfSome result (λ t. t ≡ record { atoms = atoms.items; funcs = funcs.items; actions = actions.items; goal = goal }) }
{
    if is_ground_task(
        atoms.as_slice(),
        funcs.as_slice(),
        actions.as_slice(),
        &goal,
    ) {
        Some(GroundTask::new(atoms, funcs, actions, goal))
    } else {
        None
    }
}
