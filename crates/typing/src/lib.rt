//! The task of two texts: their names are resolved, and then their types and the linearity of their expressions are
//! judged. Begin with `link`. The passes over types and over linearity stand below, in `typing_types` and `typing_linear`.
#![tactic(auto)]

mod linking;
mod making;

pub use linking::link;
