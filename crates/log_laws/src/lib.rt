//! What a sound log says of a formula: laws over the definitions of formulas, theories and logs.
#![tactic(auto)]

mod laws;

pub use laws::empty_clause_refutes;
