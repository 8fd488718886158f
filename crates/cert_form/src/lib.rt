//! Certificates as text. Begin with `write_step`, which writes a step of a log as a line, and `write_trace`, which writes the
//! end of a block where a check of the simplex got stuck. `specs/Spelling` has the lines.
#![tactic(auto)]

mod step_lines;
mod trace_lines;
mod words;

pub use step_lines::write_step;
pub use trace_lines::write_trace;
