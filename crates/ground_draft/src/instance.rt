//! The draft of an instance. Begin with `instance_draft`.
ghost use Rattle.std.specs.Prelude.{◌≡◌, true, Some, IfOk};
ghost use Rattle.lin.specs.Operations.{AnswersInMemory};
ghost use Rattle.ground_numbers.specs.Numbers.{AreDistinct};
ghost use Rattle.ground_action.specs.GroundAction.{leaves_of, moves_of, is_numbered};
ghost use Rattle.ground_action.specs.Work.{is_begun, instance_ops};
ghost use Rattle.ground_parts.specs.Forms.{setting_in};
ghost use Rattle.ground_draft.specs.Drafts.{kept_draft};
ghost use Rattle.ground_draft.specs.inside.Acts.{rows_at, rows_ops_at};
ghost use Rattle.ground_draft.specs.inside.Lists.{literals_in, added_in, deleted_in, changed_in, instance_reads, assigned_in};
ghost use Rattle.ground_draft.specs.inside.Assembly as assembly;

use crate::draft::Draft;
use crate::leaves::{Leaf, all_hold, all_leaves};
use crate::lists::{added, changed, comparisons, deleted, literals};
use crate::moves::{Move, all_moves};
use crate::reads::{assigned, reads};
use crate::rows::{Rows, all_rows};
use ground_numbers::Numbers;
use ground_parts::Grounding;
use lin::{Cmp, Lin, LinFail};
use pddl_task::{Action, Cond, Effect};
use sqlite_items::Items;
use std::alloc::{AllocError, Global};
use task_core::GAction;

/// The literals of an action, and what becomes of atoms.
#[derive(Debug, Drop)]
struct Atoms {
    lits: Items<(u64, bool)>,
    adds: Items<u64>,
    dels: Items<u64>,
}

/// The functions that get a value later, and are read or assigned.
#[derive(Debug, Drop)]
struct Late {
    reads: Items<u64>,
    assigns: Items<u64>,
}

fn make_atoms(alloc: Global, leaves: &[Leaf], moves: &[Move]) -> Result<Atoms, AllocError>
    ensures { IfOk result (λ a. a ≡ record { lits = literals_in leaves.now; adds = added_in moves.now; dels = deleted_in moves.now }) }
{
    let adds = added(alloc, moves)?;
    let dels = deleted(alloc, moves, adds.as_slice())?;
    let lits = literals(alloc, leaves)?;
    Ok(Atoms { lits, adds, dels })
}

fn make_late(
    alloc: Global,
    given: &Grounding,
    args: &[u32],
    conds: &[Cond],
    effects: &[Effect],
) -> Result<Late, AllocError>
    ensures { IfOk result (λ l. l ≡ record { reads = instance_reads (setting_in given.now) args.now conds.now effects.now; assigns = assigned_in (setting_in given.now) args.now effects.now }) }
{
    let reads = reads(alloc, given, args, conds, effects)?;
    let assigns = assigned(alloc, given, args, effects)?;
    Ok(Late { reads, assigns })
}

/// The rows of the changed functions.
fn changes(alloc: Global, moves: &[Move]) -> Result<Rows, LinFail>
    ensures { AnswersInMemory (rows_ops_at moves.now (changed_in moves.now)) (rows_at moves.now (changed_in moves.now)) result }
{
    let funcs = changed(alloc, moves)?;
    all_rows(alloc, moves, funcs.as_slice())
}

fn assembled(atoms: Atoms, late: Late, cmps: Items<(Lin, Cmp)>, rows: Rows) -> Draft
    ensures { result ≡ record {
      action = record { lits = atoms.lits; cmps = cmps; adds = atoms.adds; dels = atoms.dels; incs = rows.incs; sets = rows.sets };
      reads = late.reads;
      assigns = late.assigns;
    } }
{
    Draft {
        action: GAction {
            lits: atoms.lits,
            cmps,
            adds: atoms.adds,
            dels: atoms.dels,
            incs: rows.incs,
            sets: rows.sets,
        },
        reads: late.reads,
        assigns: late.assigns,
    }
}

/// The draft of a kept instance: comparisons in text order, then functions in rising number.
fn drafted(
    alloc: Global,
    given: &Grounding,
    args: &[u32],
    conds: &[Cond],
    effects: &[Effect],
    leaves: &[Leaf],
    moves: &[Move],
) -> Result<Draft, LinFail>
    ensures { AnswersInMemory (assembly.drafted_ops leaves.now moves.now) (assembly.drafted (setting_in given.now) args.now conds.now effects.now leaves.now moves.now) result }
{
    let cmps = comparisons(alloc, leaves)?;
    let rows = changes(alloc, moves)?;
    let atoms = make_atoms(alloc, leaves, moves)?;
    let late = make_late(alloc, given, args, conds, effects)?;
    Ok(assembled(atoms, late, cmps, rows))
}

fn held(
    alloc: Global,
    given: &Grounding,
    args: &[u32],
    conds: &[Cond],
    effects: &[Effect],
    leaves: &[Leaf],
    moves: &[Move],
) -> Result<Option<Draft>, LinFail>
    ensures { AnswersInMemory (assembly.held_ops leaves.now moves.now) (assembly.held_draft (setting_in given.now) args.now conds.now effects.now leaves.now moves.now) result }
{
    if !all_hold(leaves) {
        return Ok(None);
    }
    Ok(Some(drafted(alloc, given, args, conds, effects, leaves, moves)?))
}

fn left(
    alloc: Global,
    given: &Grounding,
    args: &[u32],
    conds: &[Cond],
    effects: &[Effect],
    leaves: &[Leaf],
) -> Result<Option<Draft>, LinFail>
    ensures { AnswersInMemory (assembly.left_ops (setting_in given.now) given.now.atoms.now args.now effects.now (Some leaves.now))
        (assembly.left_draft (setting_in given.now) given.now.atoms.now args.now conds.now effects.now (Some leaves.now)) result }
{
    let Some(moves) = all_moves(alloc, given, args, effects)? else {
        return Ok(None);
    };
    held(alloc, given, args, conds, effects, leaves, moves.as_slice())
}

fn made(
    alloc: Global,
    given: &Grounding,
    action: &Action,
    args: &[u32],
) -> Result<Option<Draft>, LinFail>
    ensures { AnswersInMemory (assembly.made_ops (setting_in given.now) given.now.atoms.now action.now args.now)
        (assembly.made_draft (setting_in given.now) given.now.atoms.now action.now args.now) result }
{
    let conds = action.conds.as_slice();
    let effects = action.effs.as_slice();
    let Some(leaves) = all_leaves(alloc, given, args, conds)? else {
        return Ok(None);
    };
    left(alloc, given, args, conds, effects, leaves.as_slice())
}

pub(crate) fn distinct(table: &Numbers)
    ensures { AreDistinct table.now }
{
    let _count = table.len();
}

/// The draft of the ground action of an instance that is begun and whose atoms and functions have numbers, or `None` where
/// it isn't kept. Or the first operation that passes, in this order: each expression in text order, then the comparisons,
/// then the changed functions in rising number.
pub fn instance_draft(
    alloc: Global,
    given: &Grounding,
    action: &Action,
    args: &[u32],
) -> Result<Option<Draft>, LinFail>
    requires begun { is_begun (setting_in given.now) action.now args.now ≡ true }
    requires numbered { is_numbered (setting_in given.now) (leaves_of (setting_in given.now) action.now args.now) (moves_of (setting_in given.now) action.now args.now) ≡ true }
    ensures { AnswersInMemory (instance_ops (setting_in given.now) action.now args.now) (kept_draft (setting_in given.now) given.now.atoms.now action.now args.now) result }
{
    distinct(given.atoms);
    distinct(given.funcs);
    made(alloc, given, action, args)
}
