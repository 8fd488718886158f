//! Which call answers which row, by its name.
use crate::shown::{show_kept, show_size, show_task};
use ground::{GroundFail, Grounded, ground};
use pddl_task::Task;
use row_files::show_wide;
use std::alloc::{AllocError, Global};

/// What a call answers on a task. Want of memory ends the program.
pub fn answer(alloc: Global, call: &str, task: &Task) -> Result<String, AllocError> {
    match call {
        "read" => show_read(alloc, task),
        _ => answer_ground(alloc, call, task),
    }
}

/// How much was read, and nothing is grounded.
fn show_read(alloc: Global, task: &Task) -> Result<String, AllocError> {
    let (objects, actions) = (task.objects(), task.actions().len());
    format!(in alloc; "objects {objects}; actions {actions}")
}

fn answer_ground(alloc: Global, call: &str, task: &Task) -> Result<String, AllocError> {
    match ground(alloc, task) {
        Ok(grounded) => show(alloc, call, &grounded),
        Err(fail) => show_fail(alloc, &fail),
    }
}

fn show(alloc: Global, call: &str, grounded: &Grounded) -> Result<String, AllocError> {
    match call {
        "ground" => show_task(alloc, grounded),
        "kept" => show_kept(alloc, grounded),
        "size" => show_size(alloc, grounded),
        _ => String::from_str(alloc, "no such call"),
    }
}

fn show_fail(alloc: Global, fail: &GroundFail) -> Result<String, AllocError> {
    match fail {
        GroundFail::Many => String::from_str(alloc, "many"),
        GroundFail::CoefWide(wide) => {
            let operation = show_wide(alloc, wide)?;
            format!(in alloc; "wide {operation}")
        }
        GroundFail::Memory => Err(AllocError),
    }
}
