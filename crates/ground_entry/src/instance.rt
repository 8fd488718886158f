//! One instance. Begin with `walk_instance`.
ghost use Rattle.std.specs.Prelude.{◌≡◌, ◌≤◌, true, [], ◌∷◌, length, IfOk, OnOk};
ghost use Rattle.lin.specs.Operations.{AnswersInMemory};
ghost use Rattle.plan_step.specs.State.{initial};
ghost use Rattle.plan_step.specs.Held.{state_of};
ghost use Rattle.ground_action.specs.GroundAction.{leaves_of, moves_of, is_numbered};
ghost use Rattle.ground_action.specs.Work.{is_begun, instance_ops};
ghost use Rattle.ground_draft.specs.Drafts.{kept_draft};
ghost use Rattle.ground_entry.specs.Walking.{setting_at, tables_with, Walks};

use crate::failure::GroundFail;
use crate::keeping::keep;
use crate::walk::Walk;
use ground_draft::{Draft, instance_draft};
use ground_instances::Search;
use ground_parts::Grounding;
use ground_seen::Tables;
use ground_tests::begun;
use lin::LinFail;
use std::alloc::AllocError;

/// Whether the instance passes the tests that come before its expressions.
fn begins(search: &Search, tables: &Tables, args: &[u32]) -> Result<bool, AllocError>
    requires { state_of search.now.start.now ≡ initial search.now.task.now }
    ensures { IfOk result (λ begins. begins ≡ is_begun (setting_at search.now.task.now tables.now) search.now.action.now args.now) }
{
    let given = Grounding {
        task: search.task,
        start: search.start,
        atoms: &tables.atoms,
        funcs: &tables.funcs,
    };
    begun(search.alloc, &given, search.action, args)
}

/// The draft of an instance that begins and whose names have numbers.
fn draft(search: &Search, tables: &Tables, args: &[u32]) -> Result<Option<Draft>, LinFail>
    requires start { state_of search.now.start.now ≡ initial search.now.task.now }
    requires begun { is_begun (setting_at search.now.task.now tables.now) search.now.action.now args.now ≡ true }
    requires numbered { is_numbered (setting_at search.now.task.now tables.now) (leaves_of (setting_at search.now.task.now tables.now) search.now.action.now args.now)
        (moves_of (setting_at search.now.task.now tables.now) search.now.action.now args.now) ≡ true }
    ensures { AnswersInMemory (instance_ops (setting_at search.now.task.now tables.now) search.now.action.now args.now)
        (kept_draft (setting_at search.now.task.now tables.now) tables.now.atoms search.now.action.now args.now) result }
{
    let given = Grounding {
        task: search.task,
        start: search.start,
        atoms: &tables.atoms,
        funcs: &tables.funcs,
    };
    instance_draft(search.alloc, &given, search.action, args)
}

/// What the instance names gets numbers.
fn see(search: &Search, tables: &mut Tables, number: u32, args: &[u32]) -> Result<(), AllocError>
    ensures { OnOk result (tables.new ≡ tables_with search.now.task.now tables.old (record { number = number; action = search.now.action.now; args = args.now })) }
{
    let _ = number;
    tables.see_instance(search.alloc, search.task, search.action, args)
}

/// Takes an instance of the action with a number: it is kept, or the walk stays as it was. Or the first of its operations that
/// passes; or it is one too many.
pub(crate) fn walk_instance(
    search: &Search,
    limit: usize,
    number: u32,
    args: &[u32],
    walk: &mut Walk,
) -> Result<(), GroundFail>
    requires start { state_of search.now.start.now ≡ initial search.now.task.now }
    requires few { length walk.old.instances ≤ limit }
    ensures { Walks search.now.task.now limit walk.old (record { number = number; action = search.now.action.now; args = args.now } ∷ []) result walk.new }
{
    if !begins(search, &walk.tables, args)? {
        return Ok(());
    }
    let atoms = walk.tables.atoms.len();
    let funcs = walk.tables.funcs.len();
    see(search, &mut walk.tables, number, args)?;
    let Some(draft) = draft(search, &walk.tables, args)? else {
        walk.tables.forget_from(atoms, funcs);
        return Ok(());
    };
    keep(search.alloc, limit, walk, number, args, draft)
}
