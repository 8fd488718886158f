//! Whether an instance rolls, asked after its first step, and by how much its functions grow then. Begin with
//! `growths_rolling`.
ghost use Rattle.std.specs.Prelude.{◌≡◌, false, IsTrue, IfOk, MatchOption};
ghost use Rattle.plan_step.specs.Held.{state_of};
ghost use Rattle.plan_step.specs.Meaning.{is_zero_ℤ};
ghost use Rattle.plan_repeat.specs.inside.Repeating.{SomeGrows, NoneGrows, IsApart, Rolls};

use crate::growing::growths;
use crate::rolling::leaves_roll;
use frac128::Frac;
use pddl_task::{Cond, Effect, Task};
use plan_step::{State, Touch};
use std::alloc::{AllocError, Global};

fn is_zero(x: &Frac) -> bool
    ensures { result ≡ is_zero_ℤ x.now.num }
{
    x.num() == 0
}

/// Whether some growth isn't 0.
fn some_grows(growths: &[Frac]) -> bool
    ensures some { IsTrue result → SomeGrows growths.now }
    ensures none { result ≡ false → NoneGrows growths.now }
{
    for growth in growths {
        if !is_zero(growth) {
            return true;
        }
    }
    false
}

/// By how much each further step of an instance with these leaves grows the functions of its touches. `None` where the
/// instance doesn't roll, or where an operation passes by which a growth is found.
pub(crate) fn growths_rolling(
    alloc: Global,
    task: &Task,
    state: &State,
    args: &[u32],
    conds: &[Cond],
    effs: &[Effect],
    touches: &[Touch],
) -> Result<Option<Vec<Frac>>, AllocError>
    ensures { IfOk result (λ o. MatchOption o (IsApart task.now (state_of state.now) args.now conds.now effs.now touches.now) (λ v. Rolls task.now (state_of state.now) args.now conds.now effs.now touches.now v.items)) }
{
    if !leaves_roll(task, state, args, conds, effs) {
        return Ok(None);
    }
    let Some(growths) = growths(alloc, state, touches)? else {
        return Ok(None);
    };
    if !some_grows(growths.as_slice()) {
        return Ok(None);
    }
    Ok(Some(growths))
}
