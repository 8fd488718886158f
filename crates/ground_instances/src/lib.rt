//! The argument lists of an action, in rising order: those whose objects are of the parameters' types and for which the
//! action's static literals and its equalities of objects hold.
//!
//! Begin with `Search`: `first` finds the first list, and `next` the one after a list. An argument is tried only while what is
//! bound so far holds, and where a static literal binds the next argument, its objects are taken from the facts.
#![tactic(auto)]

mod choosing;
mod fitting;
mod index;
mod meeting;
mod search;

pub use index::FactIndex;
pub use search::Search;
