//! Conditions, leaf by leaf. Begin with `meets`, which tests one leaf; `test_conditions` is for a step, and `goal` for the
//! goal.
ghost use Rattle.std.specs.Prelude.{◌≡◌, ◌<◌, ◌^◌, length};
ghost use Rattle.plan_step.specs.Met.{met_of};
ghost use Rattle.plan_step.specs.Held.{state_of};
ghost use Rattle.plan_step.specs.Order.{related};
ghost use Rattle.plan_step.specs.Meaning as meaning;
ghost use Rattle.plan_step.specs.Conditions as condition;

use crate::evaluation::evaluate_both;
use crate::failure::StepFail;
use crate::reading::holds_atom;
use crate::state::State;
use crate::terms::object;
use frac128::{Frac, Wide};
use pddl_task::{Cond, Rel, Task};

fn is_related(rel: Rel, x: &Frac, y: &Frac) -> bool
    ensures { result ≡ related rel x.now y.now }
{
    let order = x.cmp(y);
    match rel {
        Rel::Lt => order.is_lt(),
        Rel::Le => order.is_le(),
        Rel::Eq => order.is_eq(),
        Rel::Ge => order.is_ge(),
        Rel::Gt => order.is_gt(),
    }
}

pub(crate) fn signed(pos: bool, holds: bool) -> bool
    ensures { result ≡ meaning.signed pos holds }
{
    if pos { holds } else { !holds }
}

/// Whether the leaf holds; `None` where a side of it has no value.
fn meets(state: &State, args: &[u32], cond: &Cond) -> Result<Option<bool>, Wide>
    ensures { met_of result ≡ condition.leaf_met (state_of state.now) args.now cond.now }
{
    match cond {
        Cond::Lit {
            pos,
            pred,
            args: terms,
        } => {
            let holds = holds_atom(state, args, *pred, terms.as_slice());
            Ok(Some(signed(*pos, holds)))
        }
        Cond::Same { pos, left, right } => {
            let same = object(args, *left) == object(args, *right);
            Ok(Some(signed(*pos, same)))
        }
        Cond::Compare { rel, left, right } => {
            let Some((x, y)) = evaluate_both(state, args, left, right)? else {
                return Ok(None);
            };
            Ok(Some(is_related(*rel, &x, &y)))
        }
    }
}

/// Tests the leaves of a condition in text order, up to the first that doesn't hold; it takes no memory.
pub fn test_conditions(state: &State, args: &[u32], conds: &[Cond]) -> Result<(), StepFail>
    requires { length conds.now < 2 ^ 32 }
    ensures { result ≡ condition.first_unmet 0 (condition.leaves_met (state_of state.now) args.now conds.now) }
{
    for (i, cond) in conds.iter().enumerate() {
        match meets(state, args, cond) {
            Ok(Some(true)) => {}
            Ok(_) => return Err(StepFail::Condition(i as u32)),
            Err(wide) => return Err(StepFail::Wide(wide)),
        }
    }
    Ok(())
}

/// Whether each leaf holds. It tests them up to the first that doesn't.
pub(crate) fn all_met(state: &State, args: &[u32], conds: &[Cond]) -> Result<bool, Wide>
    ensures { result ≡ condition.all_met (condition.leaves_met (state_of state.now) args.now conds.now) }
{
    for cond in conds {
        let Some(true) = meets(state, args, cond)? else {
            return Ok(false);
        };
    }
    Ok(true)
}

/// Whether the goal holds. It takes no memory.
#[tactic(auto, unfolding(crate::specs::Conditions::goal_met))]
pub fn goal(task: &Task, state: &State) -> Result<bool, Wide>
    ensures { result ≡ condition.goal_met (state_of state.now) task.now.goal }
{
    all_met(state, &[], task.goal())
}
