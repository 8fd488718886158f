//! What the clause core asks of a theory, and what it hands to a log. Begin with `Theory` in `theory`; `verdict` and
//! `trace` have its answers, `log` the steps of a log, `sink` who takes them, and `none` the theory without atoms.
//! `specs/Log` says when a log is sound, over the formula alone: the solver, the judge and the texts share it.
#![tactic(auto)]

mod laws;
mod log;
mod none;
mod sink;
mod theory;
mod trace;
mod verdict;

pub use laws::shown_means;
pub use log::LogStep;
pub use none::NoTheory;
pub use sink::{LogFail, LogSink};
pub use theory::Theory;
pub use trace::{Coefs, Lemma, Site, Swap, Trace};
pub use verdict::{StartFail, TheoryFail, Verdict};
