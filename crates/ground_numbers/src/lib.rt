//! Ground things, numbered from 0 by first sight.
//!
//! A ground thing, `Named`, is a predicate or a function with the objects that are its arguments, as (at l1). A task has a
//! table of `Numbers` for its atoms and another for its functions: a thing's number is its place in the table.
#![tactic(auto)]

mod asked;
mod named;
mod numbers;

pub use named::Named;
pub use numbers::Numbers;

#[cfg(test)]
mod tests;
