//! What the atoms of a formula say of the variables of a simplex. Begin with `sides_of` in `sides`: the variable of each atom,
//! and its bounds where it is true and where it is false; `rows` has the rows of those left sides that aren't one variable.
//! `tightening` has the bounds that some literals give.
#![tactic(auto)]

mod rows;
mod same;
mod sides;
mod tightening;

pub use rows::rows_of;
pub use sides::{Sides, side_of, sides_of};
pub use tightening::{Held, tightest};
