//! What an instance has to pass before any expression of it is made.
ghost use Rattle.std.specs.Prelude.{◌≡◌, IfOk};
ghost use Rattle.ground_action.specs.Work.{is_begun};
ghost use Rattle.ground_parts.specs.Forms.{setting_in};

use crate::clean::are_clean;
use crate::literals::may_all_meet;
use crate::values::{conditions_have_values, effects_have_values};
use ground_parts::Grounding;
use pddl_task::Action;
use std::alloc::{AllocError, Global};

/// Whether the instance with these arguments is clean, its static literals and its equalities hold, and the static functions
/// that it reads have values at the start. It needs no numbers of atoms and functions.
pub fn begun(
    alloc: Global,
    given: &Grounding,
    action: &Action,
    args: &[u32],
) -> Result<bool, AllocError>
    ensures { IfOk result (λ begun. begun ≡ is_begun (setting_in given.now) action.now args.now) }
{
    let conds = action.conds.as_slice();
    let effects = action.effs.as_slice();
    if !are_clean(args, effects) {
        return Ok(false);
    }
    if !may_all_meet(alloc, given, args, conds)? {
        return Ok(false);
    }
    if !conditions_have_values(alloc, given, args, conds)? {
        return Ok(false);
    }
    effects_have_values(alloc, given, args, effects)
}
