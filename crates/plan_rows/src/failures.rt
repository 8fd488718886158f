//! Failures of steps.
use plan_step::StepFail;
use row_files::show_wide;
use std::alloc::{AllocError, Global};

/// What a failure says, and of an operation past 128 bits its operands too. Want of memory ends the program.
pub fn show_fail(alloc: Global, fail: &StepFail) -> Result<String, AllocError> {
    match fail {
        StepFail::Memory => Err(AllocError),
        StepFail::Wide(wide) => show_wide(alloc, wide),
        other => format!(in alloc; "{other}"),
    }
}
