//! Jumping over the repetitions of an instance that rolls. Each state is made at once from what the touches of the first step
//! keep and from the growths.
ghost use Rattle.std.specs.Prelude.{◌≡◌, ◌+◌, ◌<◌, ◌^◌, length, map};
ghost use Rattle.plan_step.specs.Held.{state_of};
ghost use Rattle.plan_step.specs.Laws.{IsWide};
ghost use Rattle.plan_step.specs.Places.{KeepsPlaces};
ghost use Rattle.plan_step.specs.Touches.{EachTouch, HasPlace, DiffersIn, target_of};
ghost use Rattle.plan_repeat.specs.inside.Jumping as jump;

use crate::failure::RepeatFail;
use crate::growing::{multiplier, roll_all};
use frac128::{Frac, Wide};
use pddl_task::Cond;
use plan_step::{State, StepFail, Touch, test_conditions};

/// Makes the state so many steps on.
fn roll_to(state: &mut State, touches: &[Touch], growths: &[Frac], steps: u128) -> Result<(), Wide>
    requires places { EachTouch (HasPlace state.old) touches.now }
    requires growths { length growths.now ≡ length touches.now }
    requires some { 0 < steps }
    ensures rolls { jump.RollsTo touches.now growths.now steps (state_of state.old) (state_of state.new) result }
    ensures differs { DiffersIn (map target_of touches.now) (state_of state.old) (state_of state.new) }
    ensures keeps { KeepsPlaces state.old state.new }
{
    let steps = multiplier(steps)?;
    roll_all(state, touches, growths, &steps)
}

/// Tests the conditions of the repetition after so many steps.
fn test_after(
    state: &mut State,
    args: &[u32],
    conds: &[Cond],
    touches: &[Touch],
    growths: &[Frac],
    steps: u128,
) -> Result<(), StepFail>
    requires places { EachTouch (HasPlace state.old) touches.now }
    requires growths { length growths.now ≡ length touches.now }
    requires some { 0 < steps }
    requires conds { length conds.now < 2 ^ 32 }
    ensures tests { jump.TestsAt args.now conds.now touches.now growths.now steps (state_of state.old) (state_of state.new) result }
    ensures differs { DiffersIn (map target_of touches.now) (state_of state.old) (state_of state.new) }
    ensures keeps { KeepsPlaces state.old state.new }
{
    roll_to(state, touches, growths, steps)?;
    test_conditions(state, args, conds)
}

/// The first repetition that fails, by halving. The conditions hold before the first repetition, and after so many steps they
/// fail so. Where an operation passes, it is answered with the repetition that is tested then.
fn first_failing(
    state: &mut State,
    args: &[u32],
    conds: &[Cond],
    touches: &[Touch],
    growths: &[Frac],
    last: u128,
    fail: StepFail,
) -> RepeatFail
    requires places { EachTouch (HasPlace state.old) touches.now }
    requires growths { length growths.now ≡ length touches.now }
    requires some { 0 < last }
    requires counted { last + 1 < 2 ^ 128 }
    requires conds { length conds.now < 2 ^ 32 }
    requires refuted { IsWide fail → ⊥ }
    ensures finds { jump.FindsFirst args.now conds.now touches.now growths.now last fail (state_of state.old) result }
    ensures differs { DiffersIn (map target_of touches.now) (state_of state.old) (state_of state.new) }
    ensures keeps { KeepsPlaces state.old state.new }
{
    let mut good = 0;
    let mut bad = last;
    let mut fail = fail;
    while bad - good > 1 {
        let middle = good + (bad - good) / 2;
        if let Err(wide) = roll_to(state, touches, growths, middle) {
            return RepeatFail {
                at: middle + 1,
                fail: StepFail::Wide(wide),
            };
        }
        match test_conditions(state, args, conds) {
            Ok(()) => good = middle,
            Err(other) => {
                if let StepFail::Wide(_) = other {
                    return RepeatFail {
                        at: middle + 1,
                        fail: other,
                    };
                }
                bad = middle;
                fail = other;
            }
        }
    }
    RepeatFail { at: bad + 1, fail }
}

/// The failure of the last repetition, where an operation passes there; else the first that fails.
fn last_fails(
    state: &mut State,
    args: &[u32],
    conds: &[Cond],
    touches: &[Touch],
    growths: &[Frac],
    times: u128,
    fail: StepFail,
) -> RepeatFail
    requires places { EachTouch (HasPlace state.old) touches.now }
    requires growths { length growths.now ≡ length touches.now }
    requires many { 1 < times }
    requires conds { length conds.now < 2 ^ 32 }
    ensures fails { jump.LastFails args.now conds.now touches.now growths.now times fail (state_of state.old) result }
    ensures differs { DiffersIn (map target_of touches.now) (state_of state.old) (state_of state.new) }
    ensures keeps { KeepsPlaces state.old state.new }
{
    if let StepFail::Wide(_) = fail {
        return RepeatFail { at: times, fail };
    }
    first_failing(state, args, conds, touches, growths, times - 1, fail)
}

/// Makes the state after all repetitions.
fn roll_to_end(
    state: &mut State,
    touches: &[Touch],
    growths: &[Frac],
    times: u128,
) -> Result<(), RepeatFail>
    requires places { EachTouch (HasPlace state.old) touches.now }
    requires growths { length growths.now ≡ length touches.now }
    requires some { 0 < times }
    ensures ends { jump.EndsAt touches.now growths.now times (state_of state.old) (state_of state.new) result }
    ensures differs { DiffersIn (map target_of touches.now) (state_of state.old) (state_of state.new) }
    ensures keeps { KeepsPlaces state.old state.new }
{
    match roll_to(state, touches, growths, times) {
        Ok(()) => Ok(()),
        Err(wide) => Err(RepeatFail {
            at: times,
            fail: StepFail::Wide(wide),
        }),
    }
}

/// The jump over so many repetitions, from the state after the first. It takes no memory.
pub(crate) fn jump(
    state: &mut State,
    args: &[u32],
    conds: &[Cond],
    touches: &[Touch],
    growths: &[Frac],
    times: u128,
) -> Result<(), RepeatFail>
    requires places { EachTouch (HasPlace state.old) touches.now }
    requires growths { length growths.now ≡ length touches.now }
    requires many { 1 < times }
    requires conds { length conds.now < 2 ^ 32 }
    ensures jumps { jump.Jumps args.now conds.now touches.now growths.now times (state_of state.old) (state_of state.new) result }
    ensures differs { DiffersIn (map target_of touches.now) (state_of state.old) (state_of state.new) }
    ensures keeps { KeepsPlaces state.old state.new }
{
    match test_after(state, args, conds, touches, growths, times - 1) {
        Ok(()) => roll_to_end(state, touches, growths, times),
        Err(fail) => Err(last_fails(state, args, conds, touches, growths, times, fail)),
    }
}
