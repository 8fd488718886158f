//! Plans of a task by the numbers of its ground actions: a plan of kept instances is valid exactly where its word of numbers is
//! in the ground task, and each valid plan has such a word. Begin with `Plans` in `specs/`; `laws` says what follows.
#![tactic(auto)]

pub mod laws;
