//! What a false clause teaches. Begin with `learn` in `analyze`: `marks` marks what the conflict stands on, `resolve` goes back over
//! the trail, `kept` makes the clause and its hints, and `fixed` learns what holds at the start of the trail by itself.
#![tactic(auto)]

mod analyze;
mod fixed;
mod kept;
mod marks;
mod resolve;

pub use analyze::learn;
pub use kept::Learned;
