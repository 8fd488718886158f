//! All instances of an action.
ghost use Rattle.std.specs.Prelude.{◌≡◌, ◌≤◌, true, length};
ghost use Rattle.pddl_task.specs.Numbers.{counts_of, is_action};
ghost use Rattle.plan_step.specs.State.{initial};
ghost use Rattle.plan_step.specs.Held.{state_of};
ghost use Rattle.ground_instances.specs.Index.{IsIndexOf};
ghost use Rattle.ground_entry.specs.Walking.{instances_of, Walks};

use crate::failure::GroundFail;
use crate::instance::walk_instance;
use crate::walk::Walk;
use ground_instances::Search;

/// The same, with room for the arguments of one instance.
fn walk_lists(
    search: &Search,
    limit: usize,
    number: u32,
    args: &mut [u32],
    walk: &mut Walk,
) -> Result<(), GroundFail>
    requires start { state_of search.now.start.now ≡ initial search.now.task.now }
    requires index { IsIndexOf search.now.facts.now search.now.task.now.facts }
    requires numbered { is_action (counts_of search.now.task.now) search.now.action.now ≡ true }
    requires arity { length args.old ≡ length search.now.action.now.params }
    requires few { length walk.old.instances ≤ limit }
    ensures { Walks search.now.task.now limit walk.old (instances_of search.now.task.now number search.now.action.now) result walk.new }
{
    let mut found = search.first(args)?;
    'instances: while found {
        walk_instance(search, limit, number, args, walk)?;
        found = search.next(args)?;
    }
    Ok(())
}

/// Walks through the instances of the action with a number, in rising order of their argument lists, while no more than
/// `limit` instances are kept. Or the first operation that passes, or an instance that is one too many, whichever comes first.
pub fn walk_action(
    search: &Search,
    limit: usize,
    number: u32,
    walk: &mut Walk,
) -> Result<(), GroundFail>
    requires start { state_of search.now.start.now ≡ initial search.now.task.now }
    requires index { IsIndexOf search.now.facts.now search.now.task.now.facts }
    requires numbered { is_action (counts_of search.now.task.now) search.now.action.now ≡ true }
    requires few { length walk.old.instances ≤ limit }
    ensures { Walks search.now.task.now limit walk.old (instances_of search.now.task.now number search.now.action.now) result walk.new }
{
    let mut args = vec![in search.alloc; 0u32; search.action.params.len()]?;
    walk_lists(search, limit, number, &mut args, walk)
}
