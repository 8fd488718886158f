//! Testing the comparisons of an action in a layer. All of them are tested, also behind one that can't hold, so that which
//! operations are named doesn't depend on their order.
ghost use Rattle.std.specs.Prelude.{◌≡◌, ◌<◌, ◌≤◌, ◌||◌, false, None, map, length, slice_index_or, slice_set, OnOk, IfErr};
ghost use Rattle.std.specs.List.{list_all};
ghost use Rattle.relaxed.specs.Layers.{comparison_may_hold, is_supported};
ghost use Rattle.relaxed.specs.Named.{comparison_operations, of_comparisons, tested_operations};
ghost use Rattle.relaxed.specs.inside.Kept.{layer_of};
ghost use Rattle.relaxed.specs.inside.Answering.{AnswersParts};
ghost use Rattle.relaxed.specs.inside.Testing.{first_after, TestsAll, TestsFit, TestFails};

use crate::failure::{LayerFail, RangePart, passing};
use crate::support::{comparison_may_hold, is_readable};
use crate::table::Table;
use lin::{Cmp, Lin};
use sqlite_items::Items;
use task_core::GAction;

fn test_comparison(
    table: &Table,
    layer: u64,
    action: u32,
    place: usize,
    l: &Lin,
    cmp: Cmp,
) -> Result<bool, LayerFail>
    ensures { AnswersParts layer action (map (λ o. (RangePart.Cond place, o)) (comparison_operations (layer_of table.now) l.now cmp)) (comparison_may_hold (layer_of table.now) (l.now, cmp)) result }
{
    if place > u32::MAX as usize {
        return Err(LayerFail::Memory);
    }
    match comparison_may_hold(table, l, cmp) {
        Ok(may_hold) => Ok(may_hold),
        Err(wide) => Err(passing(layer, action, RangePart::Cond(place as u32), wide)),
    }
}

/// Whether each of the comparisons by itself may hold.
pub(crate) fn test_comparisons(
    table: &Table,
    layer: u64,
    action: u32,
    cmps: &[(Lin, Cmp)],
) -> Result<bool, LayerFail>
    ensures { AnswersParts layer action (of_comparisons (layer_of table.now) 0 cmps.now) (list_all (comparison_may_hold (layer_of table.now)) cmps.now) result }
{
    let mut all_hold = true;
    for i in 0..cmps.len() {
        let comparison = &cmps[i];
        match test_comparison(table, layer, action, i, &comparison.0, comparison.1) {
            Ok(may_hold) => all_hold = all_hold && may_hold,
            Err(fail) => return Err(fail),
        }
    }
    Ok(all_hold)
}

/// Whether some layer so far supports the action. One that was seen isn't tested again.
fn test_action(
    seen: bool,
    table: &Table,
    layer: u64,
    action: u32,
    a: &GAction,
) -> Result<bool, LayerFail>
    ensures { AnswersParts layer action (tested_operations seen (layer_of table.now) a.now) (seen || is_supported (layer_of table.now) a.now) result }
{
    if seen {
        Ok(true)
    } else if is_readable(table, a) {
        test_comparisons(table, layer, action, a.cmps.as_slice())
    } else {
        Ok(false)
    }
}

/// Keeps the answer of one test.
fn note(
    flags: &mut Items<bool>,
    first: &mut Items<Option<u64>>,
    place: usize,
    supported: bool,
    layer: u64,
)
    requires flag { place < length flags.old }
    requires place_of_first { place < length first.old }
    ensures flags { flags.new ≡ slice_set flags.old place (slice_index_or flags.old place false || supported) }
    ensures first { first.new ≡ slice_set first.old place (first_after (slice_index_or flags.old place false) supported layer (slice_index_or first.old place None)) }
{
    if supported && !flags.as_slice()[place] {
        flags.set(place, true);
        first.set(place, Some(layer));
    }
}

/// Tests all actions that no earlier layer supports.
pub(crate) fn test_actions(
    table: &Table,
    layer: u64,
    actions: &[GAction],
    flags: &mut Items<bool>,
    first: &mut Items<Option<u64>>,
) -> Result<(), LayerFail>
    requires few { length actions.now ≤ 1000000 }
    requires flag_each { length flags.old ≡ length actions.now }
    requires first_each { length first.old ≡ length actions.now }
    ensures tests { OnOk result (TestsAll (layer_of table.now) layer actions.now flags.old flags.new first.old first.new) }
    ensures fits { OnOk result (TestsFit (layer_of table.now) actions.now flags.old) }
    ensures fails { IfErr result (TestFails layer (layer_of table.now) actions.now flags.old) }
{
    for i in 0..actions.len() {
        let a = &actions[i];
        match test_action(flags.as_slice()[i], table, layer, i as u32, a) {
            Ok(supported) => note(flags, first, i, supported, layer),
            Err(fail) => return Err(fail),
        }
    }
    Ok(())
}
