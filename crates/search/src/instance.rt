//! The instance that a ground action is.
ghost use Rattle.std.specs.Prelude.{◌≡◌, ◌<◌, true, length};
ghost use Rattle.ground.specs.Grounds.{IsGrounded};
ghost use Rattle.ground_walk.specs.Walk.{kept_instances};
ghost use Rattle.ground_plans.specs.Plans.{instance_at};
ghost use Rattle.plan_form.specs.Printed.{is_call_of};

use ground::Grounded;
use pattern_text::kept_instances_are_calls;
use pddl_task::{Instance, Task};

/// The instance of the action with this number. It can be written.
pub(crate) fn instance_of<'a>(task: &Task, grounded: &'a Grounded, action: u32) -> &'a Instance
    requires grounded { IsGrounded task.now 1000000 grounded.now }
    requires within { action < length (kept_instances task.now) }
    ensures value { result.now ≡ instance_at task.now action }
    ensures call { is_call_of task.now result.now ≡ true }
{
    kept_instances_are_calls();
    let _ = task;
    grounded.instance_of(action)
}
