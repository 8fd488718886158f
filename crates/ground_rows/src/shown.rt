//! A ground task in one line: the truths of the atoms at the start; each function, its number and its objects in parentheses, with
//! its value, `none` where there is none; the goal; and for each action its instance, an action and its objects in parentheses, all
//! by their numbers, with the ground action (`actions`). Behind a ground action that may be repeated at once stands `roll`.
ghost use Rattle.std.specs.Prelude.{◌<◌, length};

use crate::actions::add_action;
use frac128::Frac;
use ground::Grounded;
use row_files::show_fraction;
use std::alloc::{AllocError, Global};
use task_core::{GAction, GroundTask, rollable};

/// Adds a number with those of its objects behind it, in parentheses.
fn add_named(
    alloc: Global,
    out: &mut String,
    number: u32,
    objects: &[u32],
) -> Result<(), AllocError> {
    out.push_str(format!(in alloc; "({number}")?.as_str())?;
    for object in objects {
        out.push_str(format!(in alloc; " {object}")?.as_str())?;
    }
    out.push_str(")")
}

fn add_truths(out: &mut String, task: &GroundTask) -> Result<(), AllocError> {
    for atom in 0..task.atoms() {
        out.push_str(if task.atom_at_start(atom) { "1" } else { "0" })?;
    }
    Ok(())
}

fn add_value(alloc: Global, out: &mut String, value: Option<Frac>) -> Result<(), AllocError> {
    match value {
        None => out.push_str("=none"),
        Some(value) => {
            out.push_str("=")?;
            out.push_str(show_fraction(alloc, &value)?.as_str())
        }
    }
}

fn add_function(
    alloc: Global,
    out: &mut String,
    grounded: &Grounded,
    f: u64,
) -> Result<(), AllocError>
    requires { f < length grounded.now.funcs }
{
    let func = grounded.func_of(f);
    out.push_str(" ")?;
    add_named(alloc, out, func.func, func.args.as_slice())?;
    add_value(alloc, out, grounded.task().value_at_start(f))
}

fn add_functions(alloc: Global, out: &mut String, grounded: &Grounded) -> Result<(), AllocError> {
    for f in 0..grounded.task().funcs() {
        add_function(alloc, out, grounded, f)?;
    }
    Ok(())
}

fn add_instance(
    alloc: Global,
    out: &mut String,
    grounded: &Grounded,
    a: u32,
) -> Result<(), AllocError>
    requires { a < length grounded.now.instances }
{
    let instance = grounded.instance_of(a);
    out.push_str("; ")?;
    add_named(alloc, out, instance.action, instance.args.as_slice())
}

fn add_parts(alloc: Global, out: &mut String, a: &GAction) -> Result<(), AllocError> {
    add_action(alloc, out, a)?;
    out.push_str(if rollable(a) { " roll" } else { "" })
}

fn add_actions(alloc: Global, out: &mut String, grounded: &Grounded) -> Result<(), AllocError> {
    for (number, action) in grounded.task().actions().iter().enumerate() {
        add_instance(alloc, out, grounded, number as u32)?;
        add_parts(alloc, out, action)?;
    }
    Ok(())
}

/// The whole ground task.
pub fn show_task(alloc: Global, grounded: &Grounded) -> Result<String, AllocError> {
    let mut out = String::from_str(alloc, "atoms ")?;
    add_truths(&mut out, grounded.task())?;
    out.push_str("; funcs")?;
    add_functions(alloc, &mut out, grounded)?;
    out.push_str("; goal")?;
    add_action(alloc, &mut out, grounded.task().goal())?;
    add_actions(alloc, &mut out, grounded)?;
    Ok(out)
}

/// The instances alone.
pub fn show_kept(alloc: Global, grounded: &Grounded) -> Result<String, AllocError> {
    let mut out = String::from_str(alloc, "kept")?;
    for number in 0..grounded.task().actions().len() {
        add_instance(alloc, &mut out, grounded, number as u32)?;
    }
    Ok(out)
}

/// How many atoms, functions and actions.
pub fn show_size(alloc: Global, grounded: &Grounded) -> Result<String, AllocError> {
    let task = grounded.task();
    let (atoms, funcs, actions) = (task.atoms(), task.funcs(), task.actions().len());
    format!(in alloc; "atoms {atoms}; funcs {funcs}; actions {actions}")
}
