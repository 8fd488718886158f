//! Why a run comes to no answer.
use crate::Input;
use sexpr::TextFault;
use thiserror::Error;

/// Why there is no answer; each variant has its line and its status.
#[derive(Debug, Drop, Error)]
pub enum Stop {
    /// The words aren't right.
    #[error("the words aren't right")]
    Usage,
    /// A file can't be read.
    #[error("a file can't be read: {0:?}")]
    ReadFault(Input),
    /// A file is too long.
    #[error("a file is too long: {0:?}")]
    Long(Input),
    /// A text is refused, for its first fault.
    #[error("fault {} at byte {}", .0.kind, .0.place)]
    Fault(TextFault),
    /// Memory ran out.
    #[error("out of memory")]
    Memory,
}
