//! What a log over the formula of n copies says of words: laws over the definitions of that formula and of logs.
#![tactic(auto)]

mod laws;

pub use laws::empty_clause_refutes_words;
