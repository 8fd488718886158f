//! The layers, each computed whole from the one before, up to the first that is the same as the next. Begin with `layers_of`.
ghost use Rattle.std.specs.Prelude.{◌≡◌, ◌+◌, ◌<◌, false, true, None, length, slice_index_or, IfOk, IfErr, OnOk};
ghost use Rattle.task_core.specs.Task.{IsGroundTask};
ghost use Rattle.relaxed.specs.Layers.{EndsAt};
ghost use Rattle.relaxed.specs.Answer.{AreFirst, EachFits, IsPassing, AnswersLayers};
ghost use Rattle.relaxed.specs.Named.{AllPartsFit, given_operations};
ghost use Rattle.relaxed.specs.inside.Kept.{layer_of};
ghost use Rattle.relaxed.specs.inside.Nexting.{AreSupported, WidensByAll, FailsAmong, action_in};
ghost use Rattle.relaxed.specs.inside.Running.{IsAt, NoFlags, NoFirsts};

use crate::failure::LayerFail;
use crate::next::next_table;
use crate::same::is_same;
use crate::start::start_table;
use crate::table::Table;
use crate::testing::test_actions;
use sqlite_items::Items;
use std::alloc::{AllocError, Global};
use std::marker::Model;
use task_core::GroundTask;

/// For each action the number of the first layer that supports it, if any does.
#[derive(Debug, Drop)]
pub struct Layers {
    first: Items<Option<u64>>,
}

impl Model for Layers {
    ghost use Rattle.std.specs.Prelude.{ℕ, List, Option};

    ghost Value = { List (Option ℕ) };

    ghost view = { λ l. l.first };
}

impl Layers {
    /// The first layer that supports the action; `None` where no layer does.
    pub fn first(&self, a: u32) -> Option<u64>
        requires { a < length self.now }
        ensures { result ≡ slice_index_or self.now a None }
    {
        self.first.as_slice()[a as usize]
    }
}

/// Tests the actions in one layer and makes the next. Whether that is another one.
fn advance(
    alloc: Global,
    task: &GroundTask,
    layer: u64,
    table: &mut Table,
    flags: &mut Items<bool>,
    first: &mut Items<Option<u64>>,
) -> Result<bool, LayerFail>
    requires { IsAt task.now layer table.old flags.old first.old }
    ensures fails { IfErr result (IsPassing task.now) }
    ensures next { OnOk result (IsAt task.now (layer + 1) table.new flags.new first.new) }
    ensures ends { IfOk result (λ changed. changed ≡ false → EndsAt task.now layer) }
{
    let actions = task.actions();
    match test_actions(table, layer, actions, flags, first) {
        Ok(()) => {}
        Err(fail) => return Err(fail),
    }
    match next_table(alloc, table, layer, actions, flags.as_slice()) {
        Ok(next) => {
            let changed = !is_same(table, &next);
            *table = next;
            Ok(changed)
        }
        Err(fail) => Err(fail),
    }
}

/// Layer after layer, to the end. More layers than 64 bits count are want of memory.
fn run(
    alloc: Global,
    task: &GroundTask,
    table: &mut Table,
    flags: &mut Items<bool>,
    first: &mut Items<Option<u64>>,
) -> Result<(), LayerFail>
    requires promised { IsGroundTask task.now }
    requires here { IsAt task.now 0 table.old flags.old first.old }
    ensures fails { IfErr result (IsPassing task.now) }
    ensures firsts { OnOk result (AreFirst task.now first.new) }
    ensures fits { OnOk result (EachFits task.now) }
{
    for layer in 0..u64::MAX {
        match advance(alloc, task, layer, table, flags, first) {
            Ok(changed) => {
                if !changed {
                    return Ok(());
                }
            }
            Err(fail) => return Err(fail),
        }
    }
    Err(LayerFail::Memory)
}

fn no_flags(alloc: Global, count: usize) -> Result<Items<bool>, AllocError>
    ensures { IfOk result (NoFlags count) }
{
    let mut flags = Items::new(alloc);
    for n in 0..count {
        flags.push(false)?;
    }
    Ok(flags)
}

fn no_firsts(alloc: Global, count: usize) -> Result<Items<Option<u64>>, AllocError>
    ensures { IfOk result (NoFirsts count) }
{
    let mut first = Items::new(alloc);
    for n in 0..count {
        first.push(None)?;
    }
    Ok(first)
}

/// The layers of a task, as far as it is asked: the first one that supports each action.
pub fn layers_of(alloc: Global, task: &GroundTask) -> Result<Layers, LayerFail>
    ensures { AnswersLayers task.now result }
{
    let actions = task.actions().len();
    let mut flags = no_flags(alloc, actions)?;
    let mut first = no_firsts(alloc, actions)?;
    let mut table = start_table(alloc, task)?;
    match run(alloc, task, &mut table, &mut flags, &mut first) {
        Ok(()) => Ok(Layers { first }),
        Err(fail) => Err(fail),
    }
}
