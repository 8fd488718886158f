//! The next layer, computed whole from the one before.
ghost use Rattle.std.specs.Prelude.{◌≡◌, ℕ, ◌<◌, ◌≤◌, length, OnOk, IfOk, IfErr, [], if◌then◌else◌};
ghost use Rattle.std.specs.List.{All};
ghost use Rattle.task_core.specs.Task.{IsOrderly};
ghost use Rattle.relaxed.specs.Named.{AllPartsFit, of_sets, given_operations};
ghost use Rattle.relaxed.specs.inside.Kept.{layer_of};
ghost use Rattle.relaxed.specs.inside.Answering.{AnswersParts};
ghost use Rattle.relaxed.specs.inside.Nexting.{AreSupported, WidensIf, WidensByAll, FailsAmong, action_in};

use crate::failure::LayerFail;
use crate::table::Table;
use crate::widening::widen;
use sqlite_items::Items;
use std::alloc::{AllocError, Global};
use task_core::GAction;

/// What an action gives, if it is supported.
fn widen_if(
    supported: bool,
    next: &mut Table,
    table: &Table,
    layer: u64,
    action: u32,
    a: &GAction,
) -> Result<(), LayerFail>
    requires { IsOrderly a.now }
    ensures answers { AnswersParts layer action (if supported then of_sets (layer_of table.now) 0 a.now.sets else []) tt result }
    ensures widens { OnOk result (WidensIf supported (layer_of table.now) a.now next.old next.new) }
{
    if supported {
        widen(next, table, layer, action, a)
    } else {
        Ok(())
    }
}

/// What all supported actions give.
fn widen_by_all(
    next: &mut Table,
    table: &Table,
    layer: u64,
    actions: &[GAction],
    supported: &[bool],
) -> Result<(), LayerFail>
    requires few { length actions.now ≤ 1000000 }
    requires orderly { All IsOrderly actions.now }
    requires flags { AreSupported (layer_of table.now) actions.now supported.now }
    ensures fits { OnOk result ((n : ℕ) → n < length actions.now → AllPartsFit (given_operations (layer_of table.now) (action_in actions.now n))) }
    ensures fails { IfErr result (FailsAmong layer (given_operations (layer_of table.now)) actions.now) }
    ensures widens { OnOk result (WidensByAll (layer_of table.now) actions.now next.old next.new) }
{
    for i in 0..actions.len() {
        let a = &actions[i];
        match widen_if(supported[i], next, table, layer, i as u32, a) {
            Ok(()) => {}
            Err(fail) => return Err(fail),
        }
    }
    Ok(())
}

fn copy_of(alloc: Global, table: &Table) -> Result<Table, AllocError>
    ensures { IfOk result (λ t. t ≡ table.now) }
{
    Ok(Table {
        may_be_true: Items::from_slice(alloc, table.may_be_true.as_slice())?,
        may_be_false: Items::from_slice(alloc, table.may_be_false.as_slice())?,
        intervals: Items::from_slice(alloc, table.intervals.as_slice())?,
    })
}

/// The next layer: this one, and what all supported actions give.
pub(crate) fn next_table(
    alloc: Global,
    table: &Table,
    layer: u64,
    actions: &[GAction],
    supported: &[bool],
) -> Result<Table, LayerFail>
    requires few { length actions.now ≤ 1000000 }
    requires orderly { All IsOrderly actions.now }
    requires flags { AreSupported (layer_of table.now) actions.now supported.now }
    ensures fits { OnOk result ((n : ℕ) → n < length actions.now → AllPartsFit (given_operations (layer_of table.now) (action_in actions.now n))) }
    ensures fails { IfErr result (FailsAmong layer (given_operations (layer_of table.now)) actions.now) }
    ensures widens { IfOk result (WidensByAll (layer_of table.now) actions.now table.now) }
{
    let Ok(mut next) = copy_of(alloc, table) else {
        return Err(LayerFail::Memory);
    };
    match widen_by_all(&mut next, table, layer, actions, supported) {
        Ok(()) => Ok(next),
        Err(fail) => Err(fail),
    }
}
