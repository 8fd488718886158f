//! Which instances roll: their effects grow functions by amounts that stay the same, and their literals hold again after a
//! step. Begin with `leaves_roll`, which is asked after a first step.
ghost use Rattle.std.specs.Prelude.{◌≡◌, ◌&&◌, ◌||◌, map};
ghost use Rattle.std.specs.List.{list_all};
ghost use Rattle.pddl_task.specs.Task.{is_changing_func};
ghost use Rattle.pddl_task.specs.Linear as linear;
ghost use Rattle.plan_step.specs.Held.{state_of};
ghost use Rattle.plan_repeat.specs.Rolling.{is_even, literal_holds};

use pddl_task::{Cond, Effect, Expr, NumOp, Task};
use plan_step::{State, holds_atom};

/// Whether some of the expressions reads a changing function.
#[cycle(changing)]
fn any_reads(task: &Task, parts: &[Expr]) -> bool
    ensures { result ≡ linear.any_reads (map (linear.linearity_of (is_changing_func task.now.actions)) parts.now) }
{
    for part in parts {
        if reads_changing(task, part) {
            return true;
        }
    }
    false
}

#[cycle(changing)]
fn either_reads(task: &Task, left: &Expr, right: &Expr) -> bool
    ensures { result ≡ ((linear.linearity_of (is_changing_func task.now.actions) left.now).reads || (linear.linearity_of (is_changing_func task.now.actions) right.now).reads) }
{
    reads_changing(task, left) || reads_changing(task, right)
}

/// Whether an expression reads a changing function.
#[cycle(changing)]
fn reads_changing(task: &Task, expr: &Expr) -> bool
    ensures { result ≡ (linear.linearity_of (is_changing_func task.now.actions) expr.now).reads }
{
    match expr {
        Expr::Num(_) => false,
        Expr::Call { func, .. } => *func < task.funcs() && task.changing_func(*func),
        Expr::Add(parts) => any_reads(task, parts.as_slice()),
        Expr::Mul(parts) => any_reads(task, parts.as_slice()),
        Expr::Neg(part) => reads_changing(task, part.get()),
        Expr::Sub(left, right) => either_reads(task, left.get(), right.get()),
        Expr::Div(left, right) => either_reads(task, left.get(), right.get()),
    }
}

/// Whether a leaf grows its function, if it has one, by the same amount at each step.
fn is_even(task: &Task, effect: &Effect) -> bool
    ensures { result ≡ is_even (is_changing_func task.now.actions) effect.now }
{
    match effect {
        Effect::Put { .. } => true,
        Effect::Change { op, by, .. } => {
            matches!(op, NumOp::Increase | NumOp::Decrease) && !reads_changing(task, by)
        }
    }
}

/// Whether all leaves do.
fn are_even(task: &Task, effs: &[Effect]) -> bool
    ensures { result ≡ list_all (is_even (is_changing_func task.now.actions)) effs.now }
{
    for effect in effs {
        if !is_even(task, effect) {
            return false;
        }
    }
    true
}

fn literal_holds(state: &State, args: &[u32], cond: &Cond) -> bool
    ensures { result ≡ literal_holds (state_of state.now) args.now cond.now }
{
    match cond {
        Cond::Lit {
            pos,
            pred,
            args: terms,
        } => holds_atom(state, args, *pred, terms.as_slice()) == *pos,
        Cond::Same { .. } | Cond::Compare { .. } => true,
    }
}

/// Whether each literal holds; other leaves aren't tested.
fn literals_hold(state: &State, args: &[u32], conds: &[Cond]) -> bool
    ensures { result ≡ list_all (literal_holds (state_of state.now) args.now) conds.now }
{
    for cond in conds {
        if !literal_holds(state, args, cond) {
            return false;
        }
    }
    true
}

/// Whether an instance with these leaves rolls, asked in the state after a step of it: each leaf of its effect that changes a
/// function is an increase or a decrease by an expression that reads no changing function, and each literal of its condition
/// holds again. It takes no memory.
pub(crate) fn leaves_roll(
    task: &Task,
    state: &State,
    args: &[u32],
    conds: &[Cond],
    effs: &[Effect],
) -> bool
    ensures { result ≡ (list_all (is_even (is_changing_func task.now.actions)) effs.now && list_all (literal_holds (state_of state.now) args.now) conds.now) }
{
    are_even(task, effs) && literals_hold(state, args, conds)
}
