//! The occurrences of n copies of the pattern, and the goal behind them. Begin with `make_all`.
ghost use Rattle.std.specs.Prelude.{◌<◌, length};
ghost use Rattle.std.specs.List.{All};
ghost use Rattle.encode_laws.specs.Encoding.{copies};
ghost use Rattle.encode.specs.inside.Occurring.{IsSized, HasNext, KeepsCounts};
ghost use Rattle.encode.specs.inside.Copying.{OccurInTurn, IsSizedFor, actions_of, MakesGoal, MakesAll};

use crate::occurring::occur;
use encode_rows::{Symbols, Truth, ask_all, compare_all};
use formula::Formula;
use lin::LinFail;
use std::alloc::Global;
use task_core::{GAction, GroundTask};

// The occurrences of one copy.
fn occur_once(
    alloc: Global,
    formula: &mut Formula,
    symbols: &mut Symbols,
    task: &GroundTask,
    places: &[u32],
) -> Result<(), LinFail>
    requires next { HasNext formula.old symbols.old }
    requires sized { IsSizedFor task.now symbols.old }
    requires places { All (λ p. p < length task.now.actions) places.now }
    ensures makes { OccurInTurn (actions_of task.now places.now) formula.old symbols.old formula.new symbols.new result }
    ensures kept { KeepsCounts symbols.old symbols.new }
{
    let actions = task.actions();
    for place in places {
        occur(alloc, formula, symbols, &actions[*place as usize])?;
    }
    Ok(())
}

// The occurrences of all copies.
fn occur_copies(
    alloc: Global,
    formula: &mut Formula,
    symbols: &mut Symbols,
    task: &GroundTask,
    places: &[u32],
    n: u32,
) -> Result<(), LinFail>
    requires next { HasNext formula.old symbols.old }
    requires sized { IsSizedFor task.now symbols.old }
    requires places { All (λ p. p < length task.now.actions) places.now }
    ensures makes { OccurInTurn (actions_of task.now (copies n places.now)) formula.old symbols.old formula.new symbols.new result }
    ensures kept { KeepsCounts symbols.old symbols.new }
{
    for copy in 0..n {
        let _copy = copy;
        occur_once(alloc, formula, symbols, task, places)?;
    }
    Ok(())
}

// The goal.
fn reach(
    alloc: Global,
    formula: &mut Formula,
    symbols: &Symbols,
    goal: &GAction,
) -> Result<(), LinFail>
    requires next { HasNext formula.old symbols.now }
    requires sized { IsSized (length symbols.now.truths) (length symbols.now.values) goal.now }
    ensures { MakesGoal goal.now formula.old symbols.now formula.new result }
{
    let lits = goal.lits.as_slice();
    ask_all(alloc, formula, symbols, Truth::No, lits)?;
    let cmps = goal.cmps.as_slice();
    compare_all(alloc, formula, symbols, Truth::No, cmps)
}

/// All rows.
pub(crate) fn make_all(
    alloc: Global,
    formula: &mut Formula,
    symbols: &mut Symbols,
    task: &GroundTask,
    places: &[u32],
    n: u32,
) -> Result<(), LinFail>
    requires next { HasNext formula.old symbols.old }
    requires sized { IsSizedFor task.now symbols.old }
    requires places { All (λ p. p < length task.now.actions) places.now }
    ensures { MakesAll (actions_of task.now (copies n places.now)) task.now.goal formula.old symbols.old formula.new result }
{
    occur_copies(alloc, formula, symbols, task, places, n)?;
    reach(alloc, formula, symbols, task.goal())
}
