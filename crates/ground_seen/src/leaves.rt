//! What the leaves of conditions and effects name, in text order.
ghost use Rattle.std.specs.Prelude.{◌≡◌, [], ◌∷◌, OnOk};
ghost use Rattle.std.specs.List.{flat_map};
ghost use Rattle.pddl_task.specs.Task.{is_changing_pred};
ghost use Rattle.plan_step.specs.Meaning.{objects_of};
ghost use Rattle.ground_numbers.specs.Numbers.{named};
ghost use Rattle.ground_walk.specs.Sightings.{if_changing, names_of, cond_atoms, cond_funcs, effect_atoms, effect_funcs};
ghost use Rattle.ground_seen.specs.Seen.{seen, Sees};

use crate::changing::{changes_pred, objects};
use crate::expression::{see_both, see_expression, see_function};
use crate::tables::Tables;
use ground_numbers::Numbers;
use pddl_task::{Cond, Effect, Expr, Task, Term};
use std::alloc::{AllocError, Global};

/// An atom at the objects of terms.
fn see_atom(
    alloc: Global,
    atoms: &mut Numbers,
    args: &[u32],
    pred: u32,
    terms: &[Term],
) -> Result<(), AllocError>
    ensures { OnOk result (atoms.new ≡ seen atoms.old (named pred (objects_of args.now terms.now) ∷ [])) }
{
    let objects = objects(alloc, args, terms)?;
    atoms.see(pred, objects.as_slice())?;
    Ok(())
}

/// The same, where the predicate changes.
fn see_literal(
    alloc: Global,
    task: &Task,
    atoms: &mut Numbers,
    args: &[u32],
    pred: u32,
    terms: &[Term],
) -> Result<(), AllocError>
    ensures { OnOk result (atoms.new ≡ seen atoms.old (if_changing (is_changing_pred task.now.actions pred) (named pred (objects_of args.now terms.now)))) }
{
    if !changes_pred(task, pred) {
        return Ok(());
    }
    see_atom(alloc, atoms, args, pred, terms)
}

/// A function that changes, and then the functions of the expression that it changes by.
fn see_change(
    alloc: Global,
    task: &Task,
    funcs: &mut Numbers,
    args: &[u32],
    func: u32,
    terms: &[Term],
    by: &Expr,
) -> Result<(), AllocError>
    ensures { OnOk result (funcs.new ≡ seen funcs.old (named func (objects_of args.now terms.now) ∷ names_of task.now args.now by.now)) }
{
    see_function(alloc, funcs, args, func, terms)?;
    see_expression(alloc, task, funcs, args, by)
}

fn see_condition(
    alloc: Global,
    task: &Task,
    tables: &mut Tables,
    args: &[u32],
    cond: &Cond,
) -> Result<(), AllocError>
    ensures { OnOk result (Sees tables.old tables.new (cond_atoms task.now args.now cond.now) (cond_funcs task.now args.now cond.now)) }
{
    match cond {
        Cond::Lit {
            pred,
            args: terms,
            ..
        } => see_literal(
            alloc,
            task,
            &mut tables.atoms,
            args,
            *pred,
            terms.as_slice(),
        ),
        Cond::Same { .. } => Ok(()),
        Cond::Compare { left, right, .. } => {
            see_both(alloc, task, &mut tables.funcs, args, left, right)
        }
    }
}

pub(crate) fn see_conditions(
    alloc: Global,
    task: &Task,
    tables: &mut Tables,
    args: &[u32],
    conds: &[Cond],
) -> Result<(), AllocError>
    ensures { OnOk result (Sees tables.old tables.new (flat_map (cond_atoms task.now args.now) conds.now) (flat_map (cond_funcs task.now args.now) conds.now)) }
{
    for cond in conds {
        see_condition(alloc, task, tables, args, cond)?;
    }
    Ok(())
}

fn see_effect(
    alloc: Global,
    task: &Task,
    tables: &mut Tables,
    args: &[u32],
    effect: &Effect,
) -> Result<(), AllocError>
    ensures { OnOk result (Sees tables.old tables.new (effect_atoms args.now effect.now) (effect_funcs task.now args.now effect.now)) }
{
    match effect {
        Effect::Put {
            pred,
            args: terms,
            ..
        } => see_atom(alloc, &mut tables.atoms, args, *pred, terms.as_slice()),
        Effect::Change {
            func,
            args: terms,
            by,
            ..
        } => see_change(
            alloc,
            task,
            &mut tables.funcs,
            args,
            *func,
            terms.as_slice(),
            by,
        ),
    }
}

pub(crate) fn see_effects(
    alloc: Global,
    task: &Task,
    tables: &mut Tables,
    args: &[u32],
    effs: &[Effect],
) -> Result<(), AllocError>
    ensures { OnOk result (Sees tables.old tables.new (flat_map (effect_atoms args.now) effs.now) (flat_map (effect_funcs task.now args.now) effs.now)) }
{
    for effect in effs {
        see_effect(alloc, task, tables, args, effect)?;
    }
    Ok(())
}
