//! What the calls answer, as rows show it.
ghost use Rattle.std.specs.Prelude.{◌≤◌, length};

use frac128::Frac;
use pattern::Pattern;
use relaxed::{Layers, RangePart, RangeWide};
use row_files::{show_fraction, show_wide};
use std::alloc::{AllocError, Global};
use task_core::{GroundTask, rollable};

fn show_part(alloc: Global, part: RangePart) -> Result<String, AllocError> {
    match part {
        RangePart::Cond(place) => format!(in alloc; "cond {place}"),
        RangePart::Set(place) => format!(in alloc; "set {place}"),
    }
}

/// The layer, the action, the part and the operation.
pub fn show_range_wide(alloc: Global, wide: &RangeWide) -> Result<String, AllocError> {
    let (layer, action) = (wide.layer, wide.action);
    let part = show_part(alloc, wide.part)?;
    let operation = show_wide(alloc, &wide.wide)?;
    format!(in alloc; "wide {layer} {action} {part} {operation}")
}

fn add_first(alloc: Global, out: &mut String, first: Option<u64>) -> Result<(), AllocError> {
    match first {
        None => out.push_str(" -"),
        Some(layer) => out.push_str(format!(in alloc; " {layer}")?.as_str()),
    }
}

/// For each action the first layer that supports it, `-` where none does.
pub fn show_layers(alloc: Global, layers: &Layers, actions: u32) -> Result<String, AllocError>
    requires { actions ≤ length layers.now }
{
    let mut out = String::from_str(alloc, "layers")?;
    for action in 0..actions {
        add_first(alloc, &mut out, layers.first(action))?;
    }
    Ok(out)
}

fn rolls(task: &GroundTask, action: u32) -> bool {
    match task.actions().get(action as usize) {
        Some(a) => rollable(a),
        None => false,
    }
}

/// Each action of the pattern, behind `roll` or `once`.
pub fn show_pattern(
    alloc: Global,
    task: &GroundTask,
    pattern: &Pattern,
) -> Result<String, AllocError> {
    let mut out = String::from_str(alloc, "pattern")?;
    for action in pattern.places() {
        let word = if rolls(task, *action) { "roll" } else { "once" };
        out.push_str(format!(in alloc; " {word} {action}")?.as_str())?;
    }
    Ok(out)
}

fn add_truths(out: &mut String, task: &GroundTask) -> Result<(), AllocError> {
    for atom in 0..task.atoms() {
        out.push_str(if task.atom_at_start(atom) { "1" } else { "0" })?;
    }
    Ok(())
}

fn add_value(alloc: Global, out: &mut String, value: Option<Frac>) -> Result<(), AllocError> {
    match value {
        None => out.push_str("none "),
        Some(value) => {
            out.push_str(show_fraction(alloc, &value)?.as_str())?;
            out.push_str(" ")
        }
    }
}

fn add_values(alloc: Global, out: &mut String, task: &GroundTask) -> Result<(), AllocError> {
    for func in 0..task.funcs() {
        add_value(alloc, out, task.value_at_start(func))?;
    }
    Ok(())
}

fn add_sizes(alloc: Global, out: &mut String, task: &GroundTask) -> Result<(), AllocError> {
    let goal = task.goal();
    let (literals, comparisons) = (goal.lits.len(), goal.cmps.len());
    let sizes = format!(in alloc; "; goal {literals} {comparisons}; actions")?;
    out.push_str(sizes.as_str())?;
    for action in task.actions() {
        out.push_str(if rollable(action) { " roll" } else { " once" })?;
    }
    Ok(())
}

/// What the readers of a task answer: the truths and the values at the start, how many literals and comparisons the goal has, and for
/// each action whether it may be repeated.
pub fn show_task(alloc: Global, task: &GroundTask) -> Result<String, AllocError> {
    let mut out = String::from_str(alloc, "atoms ")?;
    add_truths(&mut out, task)?;
    out.push_str("; funcs ")?;
    add_values(alloc, &mut out, task)?;
    add_sizes(alloc, &mut out, task)?;
    Ok(out)
}
