//! What the programs share: the files that words name are taken in order, two texts come to a task or to their first
//! fault, and a verdict is printed line by line.
//!
//! Begin with `Stop`, why a run comes to no answer; `take_inputs` and `read_task` are what may stop it, and `put_all`,
//! `put_stop` and `finish` print its verdict. A program adds its answers, by a `Program` of `specs/Programs`; what the status of its
//! run then says is `IsRun` of `specs/Statuses`.
#![tactic(auto)]

mod input;
mod printing;
mod stop;
mod taking;
mod texts;
mod words;

pub use input::{Input, NamedInput};
pub use printing::{exit_of, finish, put_all, put_bytes, put_stop, status_of_stop};
pub use stop::Stop;
pub use taking::take_inputs;
pub use texts::read_task;
pub use words::words_of;
