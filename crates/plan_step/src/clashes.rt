//! Clashes: two leaves of an effect that change one function, not both by `increase` or `decrease`.
ghost use Rattle.std.specs.Prelude.{◌≡◌, ◌<◌, ◌^◌, false, [], ◌∷◌, length, IfOk};
ghost use Rattle.ground_map.specs.GroundMap.{value_at, IsPut};
ghost use Rattle.std.specs.List.{list_any};
ghost use Rattle.plan_step.specs.Effects.{first_clash};
ghost use Rattle.plan_step.specs.Meaning.{adds_up, clashes};
ghost use Rattle.plan_step.specs.inside.Sums.{clash_with, clash_told, IsAdded};
ghost use Rattle.plan_step.specs.Touches.{change_in, changes_of};
ghost use Rattle.plan_step.specs.inside.Touching.{Answers};

use crate::failure::StepFail;
use crate::touches::Touch;
use ground_map::GroundMap;
use pddl_task::NumOp;
use sqlite_items::Items;
use std::alloc::{AllocError, Global};

fn is_sum(op: NumOp) -> bool
    ensures { result ≡ adds_up op }
{
    matches!(op, NumOp::Increase | NumOp::Decrease)
}

fn is_clash(touch: &Touch, other: &Touch) -> bool
    ensures { result ≡ clashes (change_in touch.now) (change_in other.now) }
{
    let Touch::Function { op, func, args, .. } = touch else {
        return false;
    };
    let Touch::Function {
        op: other_op,
        func: other_func,
        args: other_args,
        ..
    } = other
    else {
        return false;
    };
    *func == *other_func
        && args.as_slice() == other_args.as_slice()
        && !(is_sum(*op) && is_sum(*other_op))
}

fn clashes_with(touch: &Touch, front: &[Touch]) -> bool
    ensures { result ≡ list_any (clashes (change_in touch.now)) (changes_of front.now) }
{
    for other in front {
        if is_clash(touch, other) {
            return true;
        }
    }
    false
}

/// By comparing each leaf with those in front of it, which is for few leaves.
fn test_pairs(touches: &[Touch]) -> Result<(), StepFail>
    requires { length touches.now < 2 ^ 32 }
    ensures { result ≡ first_clash 0 [] (changes_of touches.now) }
{
    for (i, touch) in touches.iter().enumerate() {
        if clashes_with(touch, &touches[..i]) {
            return Err(StepFail::Clash(i as u32));
        }
    }
    Ok(())
}

/// A function and its arguments as one list.
fn key_of(alloc: Global, func: u32, args: &[u32]) -> Result<Items<u32>, AllocError>
    ensures { IfOk result (λ key. key ≡ func ∷ args.now) }
{
    let mut key = Vec::with_capacity(alloc, args.len())?;
    key.push(func)?;
    key.extend_from_slice(args)?;
    Ok(Items::from_vec(key))
}

/// Adds a change to a table that says of each changed function whether all its changes are sums, and answers whether the
/// change clashes with those.
fn add_change(
    alloc: Global,
    sums: &mut GroundMap<bool>,
    op: NumOp,
    func: u32,
    args: &[u32],
) -> Result<bool, AllocError>
    requires { 0 < length sums.old }
    ensures clash { IfOk result (λ clash. clash ≡ clash_with (adds_up op) (value_at sums.old 0 (func ∷ args.now))) }
    ensures added { IfOk result (λ clash. clash ≡ false → IsPut sums.old sums.new 0 (func ∷ args.now) (adds_up op)) }
{
    let key = key_of(alloc, func, args)?;
    let adds = is_sum(op);
    if let Some(sum) = sums.get(0, key.as_slice()) {
        return Ok(!(adds && sum));
    }
    sums.insert(0, key.as_slice(), adds)?;
    Ok(false)
}

fn add_touch(alloc: Global, sums: &mut GroundMap<bool>, touch: &Touch) -> Result<bool, AllocError>
    requires { 0 < length sums.old }
    ensures clash { IfOk result (λ clash. clash ≡ clash_told (change_in touch.now) sums.old) }
    ensures added { IfOk result (λ clash. clash ≡ false → IsAdded (change_in touch.now) sums.old sums.new) }
{
    match touch {
        Touch::Atom { .. } => Ok(false),
        Touch::Function { op, func, args, .. } => {
            add_change(alloc, sums, *op, *func, args.as_slice())
        }
    }
}

/// By a table, which takes linear time for many leaves.
fn test_table(alloc: Global, touches: &[Touch]) -> Result<(), StepFail>
    requires { length touches.now < 2 ^ 32 }
    ensures { Answers (λ u. u) (first_clash 0 [] (changes_of touches.now)) result }
{
    let mut sums = GroundMap::new(alloc, 1)?;
    for (i, touch) in touches.iter().enumerate() {
        if add_touch(alloc, &mut sums, touch)? {
            return Err(StepFail::Clash(i as u32));
        }
    }
    Ok(())
}

/// Whether there is a clash, and the first leaf of one.
pub(crate) fn test_clashes(alloc: Global, touches: &[Touch]) -> Result<(), StepFail>
    requires { length touches.now < 2 ^ 32 }
    ensures { Answers (λ u. u) (first_clash 0 [] (changes_of touches.now)) result }
{
    if touches.len() <= 8 {
        test_pairs(touches)
    } else {
        test_table(alloc, touches)
    }
}
