//! The simplex over a tableau: pivots by Bland's rule until nothing is violated, a row is stuck, or the pivots are spent. Begin
//! with `check` in `checking`; `step` has one pivot, `choice` Bland's rule, `value` the values of basic variables, which are
//! kept, and `moving` how they move with a pivot.
#![tactic(auto)]

mod checking;
mod choice;
mod moving;
mod number;
mod starting;
mod step;
mod value;
mod values;

pub use checking::{CheckFail, Verdict, check};
pub use starting::{crossing, start};
pub use values::all_values;
