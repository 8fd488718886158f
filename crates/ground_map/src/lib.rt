//! Values of ground things, as (at l1): a head with a list of arguments, each named by its number.
//!
//! A `GroundMap` has a table by arguments for each head. `insert` takes memory and makes places; `get` and `put` take none.
#![tactic(auto)]

mod map;

pub use map::{GroundMap, Listed};

#[cfg(test)]
mod tests;
