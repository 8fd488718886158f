//! Clause learning over a theory. Begin with `Core` in `state`, then `solving`, its `solve`, which goes in
//! turns of one step: `stepping` finds it and `taking` takes it. A search for a step goes in rounds: `laws`
//! has propagation, `tell` asks the theory, `search` decides, and `back` goes back over the trail to where a new clause forces a
//! literal. `agenda` has what is decided first. The trail is `clause_trail`'s, and `clause_learn` learns from a conflict.
#![tactic(auto)]

mod agenda;
mod back;
pub mod laws;
mod search;
mod solving;
mod state;
mod stepping;
mod taking;
mod tell;

pub use solving::{CoreFail, Outcome};
pub use state::Core;
