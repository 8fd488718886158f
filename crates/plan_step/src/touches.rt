//! What the leaves of an effect touch, evaluated in the state before the step. Begin with `touches_of`; each touch keeps
//! what the state says before, so that a step can be undone.
ghost use Rattle.std.specs.Prelude.{◌≡◌, ◌<◌, ◌^◌, length, map, IfOk, IfSome, if◌then◌else◌};
ghost use Rattle.plan_step.specs.Met.{met_of, and_then, found, lacks};
ghost use Rattle.plan_step.specs.Held.{state_of};
ghost use Rattle.plan_step.specs.Evaluation.{evaluated};
ghost use Rattle.plan_step.specs.Meaning.{objects_of, put};
ghost use Rattle.plan_step.specs.Effects.{target_met, amount_met, change_met, all_changes};
ghost use Rattle.plan_step.specs.Touches.{change_in, changes_of};
ghost use Rattle.plan_step.specs.inside.Touching.{Answers, leaf_answer, IsTouch, AreTouches};

use crate::evaluation::{evaluate, is_zero};
use crate::failure::StepFail;
use crate::state::State;
use crate::terms::objects;
use frac128::{Frac, Wide};
use pddl_task::{Effect, Expr, NumOp, Term};
use sqlite_items::Items;
use std::alloc::{AllocError, Global};

/// What a leaf of an effect changes in an instance: an atom, which becomes true or false, or a function, by an operation and an
/// amount; with the truth or the value that was there before the step.
#[derive(Drop)]
pub enum Touch {
    Atom {
        sign: bool,
        pred: u32,
        args: Items<u32>,
        old: bool,
    },
    Function {
        op: NumOp,
        func: u32,
        args: Items<u32>,
        by: Frac,
        old: Option<Frac>,
    },
}

/// Whether the target has a value where the change needs one.
fn has_target(op: NumOp, old: &Option<Frac>) -> bool
    ensures { target_met op old.now ≡ (if result then found tt else lacks) }
{
    match op {
        NumOp::Assign => true,
        _ => old.is_some(),
    }
}

/// Whether the amount can be used: nothing is divided by 0.
fn is_amount(op: NumOp, by: &Frac) -> bool
    ensures { amount_met op by.now ≡ (if result then found by.now else lacks) }
{
    match op {
        NumOp::ScaleDown => !is_zero(by),
        _ => true,
    }
}

/// The amount of a change. The target's value is looked up before the amount is evaluated.
fn amount(
    state: &State,
    args: &[u32],
    op: NumOp,
    old: &Option<Frac>,
    by: &Expr,
) -> Result<Option<Frac>, Wide>
    ensures met { met_of result ≡ and_then (target_met op old.now) (λ _. and_then (evaluated (state_of state.now) args.now by.now) (amount_met op)) }
    ensures usable { IfOk result (λ r. IfSome r (λ x. amount_met op x ≡ found x)) }
    ensures target { IfOk result (λ r. IfSome r (λ x. target_met op old.now ≡ found tt)) }
{
    if !has_target(op, old) {
        return Ok(None);
    }
    let Some(x) = evaluate(state, args, by)? else {
        return Ok(None);
    };
    if !is_amount(op, &x) {
        return Ok(None);
    }
    Ok(Some(x))
}

fn touch_atom(
    alloc: Global,
    state: &State,
    args: &[u32],
    sign: bool,
    pred: u32,
    terms: &[Term],
) -> Result<Touch, StepFail>
    ensures meant { Answers change_in (Ok (put sign pred (objects_of args.now terms.now))) result }
    ensures sound { IfOk result (IsTouch (state_of state.now) args.now (Effect.Put sign pred terms.now)) }
{
    let objects = objects(alloc, args, terms)?;
    let old = state.atom(pred, objects.as_slice());
    Ok(Touch::Atom {
        sign,
        pred,
        args: objects,
        old,
    })
}

fn touch_function(
    alloc: Global,
    state: &State,
    args: &[u32],
    leaf: u32,
    op: NumOp,
    func: u32,
    terms: &[Term],
    by: &Expr,
) -> Result<Touch, StepFail>
    ensures meant { Answers change_in (leaf_answer leaf (change_met (state_of state.now) args.now (Effect.Change op func terms.now by.now))) result }
    ensures sound { IfOk result (IsTouch (state_of state.now) args.now (Effect.Change op func terms.now by.now)) }
{
    let objects = objects(alloc, args, terms)?;
    let old = state.value(func, objects.as_slice());
    let Some(by) = amount(state, args, op, &old, by)? else {
        return Err(StepFail::NoValue(leaf));
    };
    Ok(Touch::Function {
        op,
        func,
        args: objects,
        by,
        old,
    })
}

/// The touch of the leaf with this number.
fn touch_leaf(
    alloc: Global,
    state: &State,
    args: &[u32],
    leaf: u32,
    effect: &Effect,
) -> Result<Touch, StepFail>
    ensures meant { Answers change_in (leaf_answer leaf (change_met (state_of state.now) args.now effect.now)) result }
    ensures sound { IfOk result (IsTouch (state_of state.now) args.now effect.now) }
{
    match effect {
        Effect::Put {
            pos,
            pred,
            args: terms,
        } => touch_atom(alloc, state, args, *pos, *pred, terms.as_slice()),
        Effect::Change {
            op,
            func,
            args: terms,
            by,
        } => touch_function(alloc, state, args, leaf, *op, *func, terms.as_slice(), by),
    }
}

/// The touches of all leaves, or the first leaf that needs a value that isn't there.
pub(crate) fn touches_of(
    alloc: Global,
    state: &State,
    args: &[u32],
    effs: &[Effect],
) -> Result<Items<Touch>, StepFail>
    requires { length effs.now < 2 ^ 32 }
    ensures meant { Answers changes_of (all_changes 0 (map (change_met (state_of state.now) args.now) effs.now)) result }
    ensures sound { IfOk result (AreTouches (state_of state.now) args.now effs.now) }
{
    let mut touches = Items::from_vec(Vec::with_capacity(alloc, effs.len())?);
    for (i, effect) in effs.iter().enumerate() {
        touches.push(touch_leaf(alloc, state, args, i as u32, effect)?)?;
    }
    Ok(touches)
}
