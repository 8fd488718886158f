//! The task of a pair of texts, or their first fault.
use patty_io::LIMIT;
use patty_run::{Stop, read_task};
use pddl_task::Task;
use sexpr::TextRefusal;
use std::alloc::Global;

/// The task of two texts. One that is longer than the readers take counts as want of memory.
pub fn task_of(alloc: Global, domain: &[u8], problem: &[u8]) -> Result<Task, TextRefusal> {
    if domain.len() > LIMIT || problem.len() > LIMIT {
        return Err(TextRefusal::Memory);
    }
    match read_task(alloc, domain, problem) {
        Ok(task) => Ok(task),
        Err(Stop::Fault(fault)) => Err(TextRefusal::Fault(fault)),
        Err(_) => Err(TextRefusal::Memory),
    }
}
