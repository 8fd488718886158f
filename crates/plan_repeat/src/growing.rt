//! Values so many steps on, where each step grows a function by the same amount.
ghost use Rattle.std.specs.Prelude.{◌≡◌, ◌-◌, length, map, pos, Some, IfOk, IfErr, MatchOption};
ghost use Rattle.frac128.specs.Operations.{Passes};
ghost use Rattle.rational.specs.Fraction.{Fraction, whole, ◌-ℚ◌};
ghost use Rattle.plan_step.specs.Held.{state_of};
ghost use Rattle.plan_step.specs.Places.{HasFunction, KeepsPlaces, with_function};
ghost use Rattle.plan_step.specs.Touches.{EachTouch, HasPlace, DiffersIn, target_of};
ghost use Rattle.plan_repeat.specs.inside.Jumping as jump;

use frac128::{Frac, Op, Wide};
use plan_step::{State, Touch};
use std::alloc::{AllocError, Global};

fn zero() -> Frac
    ensures { result ≡ whole (pos 0) }
{
    Frac::ratio(0, 1)
}

/// What a value grew by; where there was none before or is none now, 0.
fn difference(old: &Option<Frac>, new: &Option<Frac>) -> Result<Frac, Wide>
    ensures found { IfOk result (λ q. (x y : Fraction) → old.now ≡ Some x → new.now ≡ Some y → q ≡ y -ℚ x) }
    ensures passes { IfErr result (λ w. (x : Fraction) × (y : Fraction) × (old.now ≡ Some x) × (new.now ≡ Some y) × Passes Op.Sub y x) }
{
    let (Some(x), Some(y)) = (old, new) else {
        return Ok(zero());
    };
    y.sub(x)
}

fn growth_of(state: &State, touch: &Touch) -> Result<Frac, Wide>
    ensures found { IfOk result (jump.IsGrowth (state_of state.now) touch.now) }
    ensures passes { IfErr result (λ w. jump.IsUnfoundAt (state_of state.now) touch.now) }
{
    match touch {
        Touch::Atom { .. } => Ok(zero()),
        Touch::Function {
            func,
            args,
            old,
            ..
        } => difference(old, &state.value(*func, args.as_slice())),
    }
}

/// By how much a step grew the function of each touch, as the state after it tells; `None` where an operation passes.
pub(crate) fn growths(
    alloc: Global,
    state: &State,
    touches: &[Touch],
) -> Result<Option<Vec<Frac>>, AllocError>
    ensures { IfOk result (λ o. MatchOption o (jump.IsUnfound (state_of state.now) touches.now) (λ v. jump.AreGrowths (state_of state.now) touches.now v.items)) }
{
    let mut growths = Vec::with_capacity(alloc, touches.len())?;
    for touch in touches {
        match growth_of(state, touch) {
            Ok(growth) => growths.push(growth)?,
            Err(_) => return Ok(None),
        }
    }
    Ok(Some(growths))
}

/// So many steps as a fraction. A number that has none is named by the sum that passes 128 bits.
pub(crate) fn multiplier(steps: u128) -> Result<Frac, Wide>
    ensures { jump.Multiplies steps result }
{
    if steps > i128::MAX as u128 {
        return Err(Wide {
            op: Op::Add,
            x: Frac::ratio(i128::MAX, 1),
            y: Frac::ratio(1, 1),
        });
    }
    Ok(Frac::ratio(steps as i128, 1))
}

fn grown(x: &Frac, growth: &Frac, steps: &Frac) -> Result<Frac, Wide>
    ensures { jump.Grows x.now growth.now steps.now result }
{
    let product = growth.mul(steps)?;
    x.add(&product)
}

fn grown_value(old: &Option<Frac>, growth: &Frac, steps: &Frac) -> Result<Option<Frac>, Wide>
    ensures { jump.GrowsValue old.now growth.now steps.now result }
{
    let Some(x) = old else {
        return Ok(None);
    };
    Ok(Some(grown(x, growth, steps)?))
}

/// The function of a touch gets its value so many steps on.
fn roll_touch(state: &mut State, touch: &Touch, growth: &Frac, steps: &Frac) -> Result<(), Wide>
    requires { HasPlace state.old touch.now }
    ensures rolls { jump.RollsTouch touch.now growth.now steps.now (state_of state.old) (state_of state.new) result }
    ensures keeps { KeepsPlaces state.old state.new }
{
    if let Touch::Function {
        func,
        args,
        old,
        ..
    } = touch
    {
        let value = grown_value(old, growth, steps)?;
        state.put_value(*func, args.as_slice(), value);
    }
    Ok(())
}

/// All functions that are touched get their values so many steps on.
pub(crate) fn roll_all(
    state: &mut State,
    touches: &[Touch],
    growths: &[Frac],
    steps: &Frac,
) -> Result<(), Wide>
    requires places { EachTouch (HasPlace state.old) touches.now }
    requires growths { length growths.now ≡ length touches.now }
    ensures rolls { jump.RollsAll touches.now growths.now steps.now (state_of state.old) (state_of state.new) result }
    ensures differs { DiffersIn (map target_of touches.now) (state_of state.old) (state_of state.new) }
    ensures keeps { KeepsPlaces state.old state.new }
{
    for (i, touch) in touches.iter().enumerate() {
        roll_touch(state, touch, &growths[i], steps)?;
    }
    Ok(())
}
