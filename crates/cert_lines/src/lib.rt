//! The words of a certificate's lines. Begin with `Words`, which gives the words of a line one after another, each in its
//! place. `spelled` tells what a word is; `numbers`, `clauses` and `fractions` read what words spell, or answer the first
//! fault; `calls` passes over an instance.
#![tactic(auto)]

mod calls;
mod clauses;
mod fractions;
mod numbers;
mod refusal;
mod spelled;
mod word;

pub use calls::skip_instance;
pub use clauses::{are_rising, read_clause, skip_clause};
pub use fractions::{read_fraction, read_fractions, skip_text_words};
pub use numbers::{
    are_numbers, is_plan_count, parse_from_one, parse_from_zero, read_number, read_numbers,
};
pub use refusal::{CertRefusal, misnumbered, misshapen, out_of_range};
pub use spelled::{are_truths, is_mark, is_name, is_number, is_text_word};
pub use word::{Word, Words};
