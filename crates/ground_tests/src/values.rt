//! Whether the static functions of expressions have values at the start. `has_values` calls itself on the parts of an
//! expression.
ghost use Rattle.std.specs.Prelude.{◌≡◌, ◌&&◌, ◌||◌, is_some, IfOk};
ghost use Rattle.std.specs.List.{list_all};
ghost use Rattle.plan_step.specs.Meaning.{objects_of};
ghost use Rattle.ground_numbers.specs.Numbers.{named};
ghost use Rattle.ground_action.specs.Setting.{value_in};
ghost use Rattle.ground_action.specs.Work as work;
ghost use Rattle.ground_action.specs.Work.{cond_has_values, effect_has_values};
ghost use Rattle.ground_parts.specs.Forms.{setting_in};

use ground_parts::{Grounding, changes_func, objects};
use pddl_task::{Cond, Effect, Expr, Term};
use std::alloc::{AllocError, Global};

fn has_value(
    alloc: Global,
    given: &Grounding,
    args: &[u32],
    func: u32,
    terms: &[Term],
) -> Result<bool, AllocError>
    ensures { IfOk result (λ has. has ≡ ((setting_in given.now).changing_func func || is_some (value_in (setting_in given.now).start (named func (objects_of args.now terms.now))))) }
{
    if changes_func(given.task, func) {
        return Ok(true);
    }
    let objects = objects(alloc, args, terms)?;
    let value = given.start.value(func, objects.as_slice());
    Ok(value.is_some())
}

#[cycle(values)]
fn all_have_values(
    alloc: Global,
    given: &Grounding,
    args: &[u32],
    parts: &[Expr],
) -> Result<bool, AllocError>
    ensures { IfOk result (λ have. have ≡ list_all (work.has_values (setting_in given.now) args.now) parts.now) }
{
    for part in parts {
        if !has_values(alloc, given, args, part)? {
            return Ok(false);
        }
    }
    Ok(true)
}

#[cycle(values)]
fn both_have_values(
    alloc: Global,
    given: &Grounding,
    args: &[u32],
    left: &Expr,
    right: &Expr,
) -> Result<bool, AllocError>
    ensures { IfOk result (λ have. have ≡ (work.has_values (setting_in given.now) args.now left.now && work.has_values (setting_in given.now) args.now right.now)) }
{
    if !has_values(alloc, given, args, left)? {
        return Ok(false);
    }
    has_values(alloc, given, args, right)
}

#[cycle(values)]
fn has_values(
    alloc: Global,
    given: &Grounding,
    args: &[u32],
    expr: &Expr,
) -> Result<bool, AllocError>
    ensures { IfOk result (λ has. has ≡ work.has_values (setting_in given.now) args.now expr.now) }
{
    match expr {
        Expr::Num(_) => Ok(true),
        Expr::Call { func, args: terms } => has_value(alloc, given, args, *func, terms.as_slice()),
        Expr::Add(parts) => all_have_values(alloc, given, args, parts.as_slice()),
        Expr::Mul(parts) => all_have_values(alloc, given, args, parts.as_slice()),
        Expr::Neg(part) => has_values(alloc, given, args, part.get()),
        Expr::Sub(left, right) => both_have_values(alloc, given, args, left.get(), right.get()),
        Expr::Div(left, right) => both_have_values(alloc, given, args, left.get(), right.get()),
    }
}

/// Whether the static functions of a condition have values.
pub fn condition_has_values(
    alloc: Global,
    given: &Grounding,
    args: &[u32],
    cond: &Cond,
) -> Result<bool, AllocError>
    ensures { IfOk result (λ has. has ≡ cond_has_values (setting_in given.now) args.now cond.now) }
{
    match cond {
        Cond::Compare { left, right, .. } => both_have_values(alloc, given, args, left, right),
        _ => Ok(true),
    }
}

fn change_has_values(
    alloc: Global,
    given: &Grounding,
    args: &[u32],
    effect: &Effect,
) -> Result<bool, AllocError>
    ensures { IfOk result (λ has. has ≡ effect_has_values (setting_in given.now) args.now effect.now) }
{
    match effect {
        Effect::Put { .. } => Ok(true),
        Effect::Change { by, .. } => has_values(alloc, given, args, by),
    }
}

/// Whether those of each condition have values.
pub(crate) fn conditions_have_values(
    alloc: Global,
    given: &Grounding,
    args: &[u32],
    conds: &[Cond],
) -> Result<bool, AllocError>
    ensures { IfOk result (λ have. have ≡ list_all (cond_has_values (setting_in given.now) args.now) conds.now) }
{
    for cond in conds {
        if !condition_has_values(alloc, given, args, cond)? {
            return Ok(false);
        }
    }
    Ok(true)
}

/// Whether those of each effect have.
pub(crate) fn effects_have_values(
    alloc: Global,
    given: &Grounding,
    args: &[u32],
    effects: &[Effect],
) -> Result<bool, AllocError>
    ensures { IfOk result (λ have. have ≡ list_all (effect_has_values (setting_in given.now) args.now) effects.now) }
{
    for effect in effects {
        if !change_has_values(alloc, given, args, effect)? {
            return Ok(false);
        }
    }
    Ok(true)
}
