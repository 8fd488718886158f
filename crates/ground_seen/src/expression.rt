//! What the expressions of an instance name, in text order. `see_expression` calls itself on the parts of an expression.
ghost use Rattle.std.specs.Prelude.{◌≡◌, [], ◌∷◌, ◌++◌, OnOk};
ghost use Rattle.std.specs.List.{flat_map};
ghost use Rattle.pddl_task.specs.Task.{is_changing_func};
ghost use Rattle.plan_step.specs.Meaning.{objects_of};
ghost use Rattle.ground_numbers.specs.Numbers.{named};
ghost use Rattle.ground_walk.specs.Sightings.{if_changing, names_of};
ghost use Rattle.ground_seen.specs.Seen.{seen};

use crate::changing::{changes_func, objects};
use ground_numbers::Numbers;
use pddl_task::{Expr, Task, Term};
use std::alloc::{AllocError, Global};

/// A function at the objects of terms.
pub(crate) fn see_function(
    alloc: Global,
    funcs: &mut Numbers,
    args: &[u32],
    func: u32,
    terms: &[Term],
) -> Result<(), AllocError>
    ensures { OnOk result (funcs.new ≡ seen funcs.old (named func (objects_of args.now terms.now) ∷ [])) }
{
    let objects = objects(alloc, args, terms)?;
    funcs.see(func, objects.as_slice())?;
    Ok(())
}

/// The same, where the function changes.
fn see_call(
    alloc: Global,
    task: &Task,
    funcs: &mut Numbers,
    args: &[u32],
    func: u32,
    terms: &[Term],
) -> Result<(), AllocError>
    ensures { OnOk result (funcs.new ≡ seen funcs.old (if_changing (is_changing_func task.now.actions func) (named func (objects_of args.now terms.now)))) }
{
    if !changes_func(task, func) {
        return Ok(());
    }
    see_function(alloc, funcs, args, func, terms)
}

#[cycle(seeing)]
fn see_parts(
    alloc: Global,
    task: &Task,
    funcs: &mut Numbers,
    args: &[u32],
    parts: &[Expr],
) -> Result<(), AllocError>
    ensures { OnOk result (funcs.new ≡ seen funcs.old (flat_map (names_of task.now args.now) parts.now)) }
{
    for part in parts {
        see_expression(alloc, task, funcs, args, part)?;
    }
    Ok(())
}

/// Two expressions, the left one first.
#[cycle(seeing)]
pub(crate) fn see_both(
    alloc: Global,
    task: &Task,
    funcs: &mut Numbers,
    args: &[u32],
    left: &Expr,
    right: &Expr,
) -> Result<(), AllocError>
    ensures { OnOk result (funcs.new ≡ seen funcs.old (names_of task.now args.now left.now ++ names_of task.now args.now right.now)) }
{
    see_expression(alloc, task, funcs, args, left)?;
    see_expression(alloc, task, funcs, args, right)
}

/// The changing functions of an expression.
#[cycle(seeing)]
pub(crate) fn see_expression(
    alloc: Global,
    task: &Task,
    funcs: &mut Numbers,
    args: &[u32],
    expr: &Expr,
) -> Result<(), AllocError>
    ensures { OnOk result (funcs.new ≡ seen funcs.old (names_of task.now args.now expr.now)) }
{
    match expr {
        Expr::Num(_) => Ok(()),
        Expr::Call { func, args: terms } => {
            see_call(alloc, task, funcs, args, *func, terms.as_slice())
        }
        Expr::Add(parts) => see_parts(alloc, task, funcs, args, parts.as_slice()),
        Expr::Mul(parts) => see_parts(alloc, task, funcs, args, parts.as_slice()),
        Expr::Neg(part) => see_expression(alloc, task, funcs, args, part.get()),
        Expr::Sub(left, right) => see_both(alloc, task, funcs, args, left.get(), right.get()),
        Expr::Div(left, right) => see_both(alloc, task, funcs, args, left.get(), right.get()),
    }
}
