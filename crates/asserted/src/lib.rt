//! What a theory keeps of its calls: the literals that are asserted, in order, with marks between them. Begin with `Asserted`.
#![tactic(auto)]

mod events;

pub use events::Asserted;
