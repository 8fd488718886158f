//! What an accepted log says: laws over the definitions of formulas, logs and the judge's tests. `specs/Licensed` says when a log
//! is licensed in 128 bits.
#![tactic(auto)]

mod laws;

pub use laws::{
    accepted_log_refutes, accepted_log_refutes_words, accepted_where_sound_and_licensed,
    log_accepted_where_sound_and_licensed, no_clause_is_accepted_twice, refused_operation_passes,
};
