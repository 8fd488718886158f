//! Which call answers which row, by its name.
ghost use Rattle.std.specs.Prelude.{◌≤◌};

use crate::expressions::read_number;
use crate::formulas::answer_formula;
use crate::points::{answer_point, read_point};
use crate::refusal::Refusal;
use crate::shown::{show_layers, show_pattern, show_range_wide, show_task};
use crate::tasks::read_task;
use formula::Point;
use pattern::pattern_of;
use relaxed::{LayerFail, Layers, layers_of};
use row_files::word;
use std::alloc::{AllocError, Global};
use task_core::GroundTask;

/// What a call answers on the task of the first text. Want of memory ends the program.
pub fn answer(alloc: Global, call: &str, texts: &[Vec<u8>]) -> Result<String, AllocError> {
    match read_task(alloc, word(texts, 0)) {
        Ok(task) => answer_task(alloc, call, &task, texts),
        Err(Refusal::Form) => String::from_str(alloc, "form"),
        Err(Refusal::NoTask) => String::from_str(alloc, "no task"),
        Err(Refusal::Memory) => Err(AllocError),
    }
}

fn answer_task(
    alloc: Global,
    call: &str,
    task: &GroundTask,
    texts: &[Vec<u8>],
) -> Result<String, AllocError> {
    match call {
        "task" => show_task(alloc, task),
        "layers" => answer_layers(alloc, task),
        "pattern" => answer_pattern(alloc, task),
        "formula" => answer_copies(alloc, task, word(texts, 1), false),
        "formula-size" => answer_copies(alloc, task, word(texts, 1), true),
        "meets" => answer_meets(alloc, task, texts),
        _ => String::from_str(alloc, "no such call"),
    }
}

fn answer_layers(alloc: Global, task: &GroundTask) -> Result<String, AllocError> {
    match layers_of(alloc, task) {
        Ok(layers) => show_layers(alloc, &layers, task.actions().len() as u32),
        Err(fail) => show_fail(alloc, &fail),
    }
}

fn answer_pattern(alloc: Global, task: &GroundTask) -> Result<String, AllocError> {
    match layers_of(alloc, task) {
        Ok(layers) => show_pattern(alloc, task, &pattern_of(alloc, task, &layers)?),
        Err(fail) => show_fail(alloc, &fail),
    }
}

fn answer_copies(
    alloc: Global,
    task: &GroundTask,
    copies: &str,
    size_alone: bool,
) -> Result<String, AllocError> {
    match read_number(copies) {
        Ok(n) if n <= 1000 => answer_copies_of(alloc, task, n as u32, size_alone),
        _ => String::from_str(alloc, "form"),
    }
}

fn answer_copies_of(
    alloc: Global,
    task: &GroundTask,
    n: u32,
    size_alone: bool,
) -> Result<String, AllocError>
    requires { n ≤ 1000 }
{
    match layers_of(alloc, task) {
        Ok(layers) => answer_formula(
            alloc,
            task,
            &pattern_of(alloc, task, &layers)?,
            n,
            size_alone,
        ),
        Err(fail) => show_fail(alloc, &fail),
    }
}

fn answer_meets(alloc: Global, task: &GroundTask, texts: &[Vec<u8>]) -> Result<String, AllocError> {
    let n = match read_number(word(texts, 1)) {
        Ok(n) if n <= 1000 => n as u32,
        _ => return String::from_str(alloc, "form"),
    };
    match read_point(alloc, word(texts, 2), word(texts, 3)) {
        Ok(point) => answer_meets_of(alloc, task, n, &point),
        Err(Refusal::Memory) => Err(AllocError),
        Err(_) => String::from_str(alloc, "form"),
    }
}

fn answer_meets_of(
    alloc: Global,
    task: &GroundTask,
    n: u32,
    point: &Point,
) -> Result<String, AllocError>
    requires { n ≤ 1000 }
{
    match layers_of(alloc, task) {
        Ok(layers) => answer_point(alloc, task, &pattern_of(alloc, task, &layers)?, n, point),
        Err(fail) => show_fail(alloc, &fail),
    }
}

fn show_fail(alloc: Global, fail: &LayerFail) -> Result<String, AllocError> {
    match fail {
        LayerFail::RangeWide(wide) => show_range_wide(alloc, wide),
        LayerFail::Memory => Err(AllocError),
    }
}
