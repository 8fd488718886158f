//! Where a clause is to be found again. Begin with `ClauseIndex`: each clause stands, by its number, under one of its literals, so
//! whoever looks for the parts of a clause need not look at all clauses: each of them stands under a literal of that clause.
#![tactic(auto)]

mod index;
mod lists;

pub use index::ClauseIndex;
