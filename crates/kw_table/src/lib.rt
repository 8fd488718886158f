//! Tables of keywords: which of a fixed list of words a text is.
//!
//! A `Table` has its words in rising byte order, `find` searches it, and `rows!` branches on the word that was
//! found, with each word beside its branch.
#![tactic(auto)]

mod rows;
mod table;

pub use table::Table;

#[cfg(test)]
mod tests;
