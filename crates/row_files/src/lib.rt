//! Cases as rows of data: a program that is built on this library prints, for each row of the files that its arguments name,
//! what a call answers. So a new case costs a line of data and a line of `stdout`, and no proof.
//!
//! A file has a row on each line, with `|` between its parts: the name of the row, and what it fills into the frame above it.
//! A line `frame CALL | TEXT ..` says which call answers the rows below it, and the texts that it is given; a `$1` in them
//! stands for a row's first part, and so on. An empty line and one that starts with `#` are passed over. `escapes` has what a
//! `\` stands for; `faults` and `fractions` have how answers show these. Begin with `row`, and then `answers`.
#![tactic(auto)]

mod answers;
mod escapes;
mod faults;
mod fractions;
mod row;
mod texts;

pub use answers::{Answers, answer_files};
pub use escapes::add_shown;
pub use faults::{show_fault, show_refusal};
pub use fractions::{show_fraction, show_wide};
pub use texts::{text, word};
