//! Grounding loses and adds nothing: an instance is listed exactly where it is kept, it runs in the task exactly where its ground
//! action runs in the ground task, and it may be repeated at once exactly where that may. Begin with `laws`.
#![tactic(auto)]

pub mod laws;
