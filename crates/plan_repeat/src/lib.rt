//! So many steps of one instance in turn. Begin with `repeat`. Where the instance rolls, which `deciding` tests after its first
//! step, it jumps over the repetitions: `growing` makes the state so many steps on, and `jumping` looks for the first repetition
//! that fails. All of that stands on one law, `laws::rolling`.
#![tactic(auto)]

mod deciding;
mod failure;
mod growing;
mod jumping;
pub mod laws;
mod repeating;
mod rolling;

pub use failure::RepeatFail;
pub use repeating::repeat;
