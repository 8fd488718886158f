//! What the programs of rows on tasks share: the task of two texts. Begin with `answer_on_task`.
#![tactic(auto)]

mod on_task;
mod tasks;

pub use on_task::{TaskAnswers, answer_on_task};
pub use tasks::task_of;
