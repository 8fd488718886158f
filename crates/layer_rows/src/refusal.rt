//! Why a text gives no ground task.
use lin::LinFail;
use std::alloc::{AllocError, AllocFailed};

/// It isn't of the form, its parts make no ground task, or memory ran out.
#[derive(Clone, Copy)]
pub enum Refusal {
    Form,
    NoTask,
    Memory,
}

impl From<AllocError> for Refusal {
    fn from(_error: AllocError) -> Refusal {
        Refusal::Memory
    }
}

impl<T: Drop> From<AllocFailed<T>> for Refusal {
    fn from(_failed: AllocFailed<T>) -> Refusal {
        Refusal::Memory
    }
}

impl From<LinFail> for Refusal {
    fn from(fail: LinFail) -> Refusal {
        match fail {
            LinFail::Wide(_) => Refusal::Form,
            LinFail::Memory => Refusal::Memory,
        }
    }
}
