//! The end of grounding: all atoms are known.
ghost use Rattle.std.specs.Prelude.{◌≡◌, map, length, IfOk};
ghost use Rattle.task_core.specs.Task.{IsGroundTask};
ghost use Rattle.plan_step.specs.Held.{state_of};
ghost use Rattle.ground.specs.Grounds.{func_in};
ghost use Rattle.ground.specs.inside.Concluding.{finished_at, mark_at, parts_of, IsStartOf};

use crate::finishing::{Marks, finish, finish_all};
use crate::grounded::Grounded;
use crate::starting::{functions, mark_values, truths, values};
use frac128::Frac;
use ground_draft::Draft;
use ground_entry::Walk;
use ground_seen::Tables;
use plan_step::State;
use sqlite_items::Items;
use std::alloc::{AllocError, Global};
use task_core::{GAction, GroundTask};

/// The start of the ground task, and the atoms that say whether functions have values.
#[derive(Drop)]
struct Start {
    truths: Vec<bool>,
    values: Vec<Option<Frac>>,
    marks: Vec<u64>,
}

/// The actions and the goal.
#[derive(Drop)]
struct Finished {
    actions: Vec<GAction>,
    goal: GAction,
}

fn start_of(alloc: Global, state: &State, tables: &Tables) -> Result<Start, AllocError>
    ensures { IfOk result (λ s. IsStartOf (state_of state.now) tables.now s.truths.items s.values.items s.marks.items) }
{
    let mut truths = truths(alloc, state, &tables.atoms)?;
    let values = values(alloc, state, &tables.funcs)?;
    let marks = mark_values(alloc, &values, &mut truths)?;
    Ok(Start {
        truths,
        values,
        marks,
    })
}

fn finish_both(
    alloc: Global,
    marks: &Marks,
    drafts: Items<Draft>,
    goal: Draft,
) -> Result<Finished, AllocError>
    ensures actions { IfOk result (λ f. f.actions.items ≡ map (finished_at (mark_at marks.now.atoms.now marks.now.last)) drafts) }
    ensures goal { IfOk result (λ f. f.goal ≡ finished_at (mark_at marks.now.atoms.now marks.now.last) goal) }
{
    let goal = finish(marks, goal)?;
    let actions = finish_all(alloc, marks, drafts)?;
    Ok(Finished { actions, goal })
}

/// The ground task of a walk that is through, with the goal's draft.
pub(crate) fn conclude(
    alloc: Global,
    state: &State,
    walk: Walk,
    goal: Draft,
) -> Result<Grounded, AllocError>
    requires parts { IsGroundTask (parts_of (state_of state.now) walk goal) }
    requires matched { length walk.instances ≡ length walk.drafts }
    ensures { IfOk result (λ g. g ≡ record { task = parts_of (state_of state.now) walk goal; instances = walk.instances; funcs = map func_in walk.tables.funcs }) }
{
    let Walk {
        tables,
        instances,
        drafts,
    } = walk;
    let funcs = functions(alloc, &tables.funcs)?;
    let Start {
        truths,
        values,
        marks,
    } = start_of(alloc, state, &tables)?;
    let marks = Marks {
        atoms: &marks,
        last: truths.len() as u64,
    };
    let Finished { actions, goal } = finish_both(alloc, &marks, drafts, goal)?;
    Ok(Grounded {
        task: GroundTask::new(truths, values, actions, goal),
        instances,
        funcs,
    })
}
