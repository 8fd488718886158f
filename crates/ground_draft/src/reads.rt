//! The functions without an initial value that an instance reads, and those that it assigns. `add_reads` calls itself on the
//! parts of an expression.
ghost use Rattle.std.specs.Prelude.{◌≡◌, ◌++◌, not, is_some, IfOk, OnOk};
ghost use Rattle.std.specs.List.{flat_map};
ghost use Rattle.plan_step.specs.Meaning.{objects_of};
ghost use Rattle.ground_numbers.specs.Numbers.{named};
ghost use Rattle.ground_parts.specs.Forms.{setting_in};
ghost use Rattle.ground_draft.specs.inside.Lists as lists;

use crate::rising::rising;
use ground_parts::{Grounding, changes_func, number, objects};
use pddl_task::{Cond, Effect, Expr, NumOp, Term};
use sqlite_items::Items;
use std::alloc::{AllocError, Global};

/// Adds the number of the function, where it has no initial value.
fn add_if_missing(
    given: &Grounding,
    out: &mut Items<u64>,
    func: u32,
    args: &[u32],
) -> Result<(), AllocError>
    ensures { OnOk result (out.new ≡ out.old ++ lists.if_missing (setting_in given.now) (named func args.now)) }
{
    if given.start.value(func, args).is_none() {
        out.push(number(given.funcs, func, args))?;
    }
    Ok(())
}

fn add_call(
    alloc: Global,
    given: &Grounding,
    args: &[u32],
    out: &mut Items<u64>,
    func: u32,
    terms: &[Term],
) -> Result<(), AllocError>
    ensures { OnOk result (out.new ≡ out.old ++ lists.call_reads (setting_in given.now) (named func (objects_of args.now terms.now))) }
{
    if !changes_func(given.task, func) {
        return Ok(());
    }
    let objects = objects(alloc, args, terms)?;
    add_if_missing(given, out, func, objects.as_slice())
}

#[cycle(reads)]
fn add_both(
    alloc: Global,
    given: &Grounding,
    args: &[u32],
    out: &mut Items<u64>,
    left: &Expr,
    right: &Expr,
) -> Result<(), AllocError>
    ensures { OnOk result (out.new ≡ out.old ++ (lists.expression_reads (setting_in given.now) args.now left.now ++ lists.expression_reads (setting_in given.now) args.now right.now)) }
{
    add_reads(alloc, given, args, out, left)?;
    add_reads(alloc, given, args, out, right)
}

#[cycle(reads)]
fn add_all(
    alloc: Global,
    given: &Grounding,
    args: &[u32],
    out: &mut Items<u64>,
    parts: &[Expr],
) -> Result<(), AllocError>
    ensures { OnOk result (out.new ≡ out.old ++ flat_map (lists.expression_reads (setting_in given.now) args.now) parts.now) }
{
    for part in parts {
        add_reads(alloc, given, args, out, part)?;
    }
    Ok(())
}

#[cycle(reads)]
fn add_reads(
    alloc: Global,
    given: &Grounding,
    args: &[u32],
    out: &mut Items<u64>,
    expr: &Expr,
) -> Result<(), AllocError>
    ensures { OnOk result (out.new ≡ out.old ++ lists.expression_reads (setting_in given.now) args.now expr.now) }
{
    match expr {
        Expr::Num(_) => Ok(()),
        Expr::Call { func, args: terms } => {
            add_call(alloc, given, args, out, *func, terms.as_slice())
        }
        Expr::Add(parts) => add_all(alloc, given, args, out, parts.as_slice()),
        Expr::Mul(parts) => add_all(alloc, given, args, out, parts.as_slice()),
        Expr::Neg(part) => add_reads(alloc, given, args, out, part.get()),
        Expr::Sub(left, right) => add_both(alloc, given, args, out, left.get(), right.get()),
        Expr::Div(left, right) => add_both(alloc, given, args, out, left.get(), right.get()),
    }
}

/// What both sides of a comparison read.
pub(crate) fn add_condition(
    alloc: Global,
    given: &Grounding,
    args: &[u32],
    out: &mut Items<u64>,
    cond: &Cond,
) -> Result<(), AllocError>
    ensures { OnOk result (out.new ≡ out.old ++ lists.condition_reads (setting_in given.now) args.now cond.now) }
{
    match cond {
        Cond::Compare { left, right, .. } => add_both(alloc, given, args, out, left, right),
        _ => Ok(()),
    }
}

fn is_assign(op: NumOp) -> bool
    ensures { result ≡ lists.is_assign op }
{
    match op {
        NumOp::Assign => true,
        _ => false,
    }
}

/// The target, but of an assignment.
fn add_target(
    alloc: Global,
    given: &Grounding,
    args: &[u32],
    out: &mut Items<u64>,
    op: NumOp,
    func: u32,
    terms: &[Term],
) -> Result<(), AllocError>
    ensures { OnOk result (out.new ≡ out.old ++ lists.target_reads (setting_in given.now) op (named func (objects_of args.now terms.now))) }
{
    if is_assign(op) {
        return Ok(());
    }
    let objects = objects(alloc, args, terms)?;
    add_if_missing(given, out, func, objects.as_slice())
}

fn add_change(
    alloc: Global,
    given: &Grounding,
    args: &[u32],
    out: &mut Items<u64>,
    effect: &Effect,
) -> Result<(), AllocError>
    ensures { OnOk result (out.new ≡ out.old ++ lists.change_reads (setting_in given.now) args.now effect.now) }
{
    match effect {
        Effect::Put { .. } => Ok(()),
        Effect::Change {
            op,
            func,
            args: terms,
            by,
        } => {
            add_target(alloc, given, args, out, *op, *func, terms.as_slice())?;
            add_reads(alloc, given, args, out, by)
        }
    }
}

/// What the conditions and the effects read, in rising number.
pub(crate) fn reads(
    alloc: Global,
    given: &Grounding,
    args: &[u32],
    conds: &[Cond],
    effects: &[Effect],
) -> Result<Items<u64>, AllocError>
    ensures { IfOk result (λ numbers. numbers ≡ lists.instance_reads (setting_in given.now) args.now conds.now effects.now) }
{
    let mut out = Items::new(alloc);
    for cond in conds {
        add_condition(alloc, given, args, &mut out, cond)?;
    }
    for effect in effects {
        add_change(alloc, given, args, &mut out, effect)?;
    }
    rising(alloc, out.as_slice())
}

fn add_assigned(
    alloc: Global,
    given: &Grounding,
    args: &[u32],
    out: &mut Items<u64>,
    effect: &Effect,
) -> Result<(), AllocError>
    ensures { OnOk result (out.new ≡ out.old ++ lists.assigned_at (setting_in given.now) args.now effect.now) }
{
    let Effect::Change {
        op,
        func,
        args: terms,
        ..
    } = effect
    else {
        return Ok(());
    };
    if !is_assign(*op) {
        return Ok(());
    }
    let objects = objects(alloc, args, terms.as_slice())?;
    add_if_missing(given, out, *func, objects.as_slice())
}

/// What the effects assign, in rising number.
pub(crate) fn assigned(
    alloc: Global,
    given: &Grounding,
    args: &[u32],
    effects: &[Effect],
) -> Result<Items<u64>, AllocError>
    ensures { IfOk result (λ numbers. numbers ≡ lists.assigned_in (setting_in given.now) args.now effects.now) }
{
    let mut out = Items::new(alloc);
    for effect in effects {
        add_assigned(alloc, given, args, &mut out, effect)?;
    }
    rising(alloc, out.as_slice())
}
