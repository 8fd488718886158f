//! Names, each once, numbered by first sight.
//!
//! A `NameTable` is the list of its names: a name's number is its place there. A reader adds the names that a text
//! declares, and looks up those that the text uses.
#![tactic(auto)]

mod table;

pub use table::NameTable;

#[cfg(test)]
mod tests;
