//! Whether parts make a ground task, tested at run time: for tests, and for programs that read or generate ground tasks. Begin
//! with `checked_task`.
#![tactic(auto)]

mod checked;
mod numbered;
mod orderly;
mod values;

pub use checked::{checked_task, is_ground_task};
