//! Applying the touches of a step to a state. Begin with `apply`. Places are made first, so that it takes no memory; where
//! an operation passes, what the touches keep is put back.
ghost use Rattle.std.specs.Prelude.{◌≡◌, OnOk, Some, map};
ghost use Rattle.plan_step.specs.State.{PlanState};
ghost use Rattle.plan_step.specs.Met.{found, met_of_value};
ghost use Rattle.plan_step.specs.Held.{state_of};
ghost use Rattle.plan_step.specs.Places.{HasFunction, KeepsPlaces};
ghost use Rattle.plan_step.specs.Effects as effects;
ghost use Rattle.plan_step.specs.Step.{state_after};
ghost use Rattle.plan_step.specs.Touches.{EachTouch, HasPlace, HasTarget, IsKept, DiffersIn, changes_of, target_of};
ghost use Rattle.plan_step.specs.inside.Touching.{IsUsable};
ghost use Rattle.plan_step.specs.inside.Application as application;

use crate::state::State;
use crate::touches::Touch;
use frac128::{Frac, Wide};
use pddl_task::NumOp;
use std::alloc::AllocError;

fn make_place(state: &mut State, touch: &Touch) -> Result<(), AllocError>
    ensures same { state_of state.new ≡ state_of state.old }
    ensures keeps { KeepsPlaces state.old state.new }
    ensures place { OnOk result (HasPlace state.new touch.now) }
{
    match touch {
        Touch::Atom { pred, args, .. } => state.make_atom_place(*pred, args.as_slice()),
        Touch::Function { func, args, .. } => state.make_function_place(*func, args.as_slice()),
    }
}

/// Makes a place for all that is touched; the state stays the same.
pub(crate) fn make_places(state: &mut State, touches: &[Touch]) -> Result<(), AllocError>
    ensures same { state_of state.new ≡ state_of state.old }
    ensures keeps { KeepsPlaces state.old state.new }
    ensures places { OnOk result (EachTouch (HasPlace state.new) touches.now) }
{
    for touch in touches {
        make_place(state, touch)?;
    }
    Ok(())
}

fn put_back(state: &mut State, touch: &Touch)
    requires { HasPlace state.old touch.now }
    ensures put { state_of state.new ≡ application.put_back touch.now (state_of state.old) }
    ensures keeps { KeepsPlaces state.old state.new }
{
    match touch {
        Touch::Atom {
            pred,
            args,
            old,
            ..
        } => state.put_atom(*pred, args.as_slice(), *old),
        Touch::Function {
            func,
            args,
            old,
            ..
        } => state.put_value(*func, args.as_slice(), *old),
    }
}

/// Puts back what the touches keep. It takes no memory.
pub fn restore(state: &mut State, touches: &[Touch])
    requires { EachTouch (HasPlace state.old) touches.now }
    ensures restored { (s : PlanState) → EachTouch (IsKept s) touches.now → DiffersIn (map target_of touches.now) s (state_of state.old) → state_of state.new ≡ s }
    ensures keeps { KeepsPlaces state.old state.new }
{
    for touch in touches {
        put_back(state, touch);
    }
}

fn put_truth(state: &mut State, touch: &Touch, truth: bool)
    requires { HasPlace state.old touch.now }
    ensures put { state_of state.new ≡ application.put_by truth touch.now (state_of state.old) }
    ensures keeps { KeepsPlaces state.old state.new }
{
    if let Touch::Atom {
        sign,
        pred,
        args,
        ..
    } = touch
    {
        if *sign == truth {
            state.put_atom(*pred, args.as_slice(), truth);
        }
    }
}

/// The atoms that are deleted, or added, become false, or true.
fn put_truths(state: &mut State, touches: &[Touch], truth: bool)
    requires { EachTouch (HasPlace state.old) touches.now }
    ensures put { state_of state.new ≡ application.with_truths truth (changes_of touches.now) (state_of state.old) }
    ensures keeps { KeepsPlaces state.old state.new }
{
    for touch in touches {
        put_truth(state, touch, truth);
    }
}

/// The value after one change.
fn changed(op: NumOp, value: &Option<Frac>, by: &Frac) -> Result<Frac, Wide>
    requires usable { effects.amount_met op by.now ≡ found by.now }
    requires target { effects.target_met op value.now ≡ found tt }
    ensures { met_of_value result ≡ effects.changed op value.now by.now }
{
    let Some(x) = value else {
        return Ok(*by);
    };
    match op {
        NumOp::Assign => Ok(*by),
        NumOp::Increase => x.add(by),
        NumOp::Decrease => x.sub(by),
        NumOp::ScaleUp => x.mul(by),
        NumOp::ScaleDown => x.div(by),
    }
}

fn change_value(
    state: &mut State,
    op: NumOp,
    func: u32,
    args: &[u32],
    by: &Frac,
) -> Result<(), Wide>
    requires place { HasFunction state.old func args.now }
    requires usable { effects.amount_met op by.now ≡ found by.now }
    requires target { effects.target_met op ((state_of state.old).value func args.now) ≡ found tt }
    ensures changes { application.FunctionChanges (effects.changed op ((state_of state.old).value func args.now) by.now) func args.now (state_of state.old) (state_of state.new) result }
    ensures keeps { KeepsPlaces state.old state.new }
{
    let old = state.value(func, args);
    let new = changed(op, &old, by)?;
    state.put_value(func, args, Some(new));
    Ok(())
}

fn change(state: &mut State, touch: &Touch) -> Result<(), Wide>
    requires place { HasPlace state.old touch.now }
    requires usable { IsUsable touch.now }
    requires target { HasTarget (state_of state.old) touch.now }
    ensures changes { application.TouchChanges touch.now (state_of state.old) (state_of state.new) result }
    ensures keeps { KeepsPlaces state.old state.new }
{
    match touch {
        Touch::Atom { .. } => Ok(()),
        Touch::Function {
            op,
            func,
            args,
            by,
            ..
        } => change_value(state, *op, *func, args.as_slice(), by),
    }
}

/// The functions change one by one, each from its value so far.
fn change_values(state: &mut State, touches: &[Touch]) -> Result<(), Wide>
    requires places { EachTouch (HasPlace state.old) touches.now }
    requires usable { EachTouch IsUsable touches.now }
    requires targets { EachTouch (HasTarget (state_of state.old)) touches.now }
    ensures changes { application.ValuesChange (effects.values_after (changes_of touches.now) (state_of state.old).value) (state_of state.old) (state_of state.new) result }
    ensures differs { DiffersIn (map target_of touches.now) (state_of state.old) (state_of state.new) }
    ensures keeps { KeepsPlaces state.old state.new }
{
    for touch in touches {
        change(state, touch)?;
    }
    Ok(())
}

/// Applies the touches of a step from this state. Values change first, since there an operation may pass.
pub(crate) fn apply(state: &mut State, touches: &[Touch]) -> Result<(), Wide>
    requires places { EachTouch (HasPlace state.old) touches.now }
    requires kept { EachTouch (IsKept (state_of state.old)) touches.now }
    requires usable { EachTouch IsUsable touches.now }
    requires targets { EachTouch (HasTarget (state_of state.old)) touches.now }
    ensures applied { application.IsAfter (state_after (changes_of touches.now) (state_of state.old)) (state_of state.old) (state_of state.new) result }
    ensures differs { DiffersIn (map target_of touches.now) (state_of state.old) (state_of state.new) }
    ensures keeps { KeepsPlaces state.old state.new }
{
    if let Err(wide) = change_values(state, touches) {
        restore(state, touches);
        return Err(wide);
    }
    put_truths(state, touches, false);
    put_truths(state, touches, true);
    Ok(())
}
