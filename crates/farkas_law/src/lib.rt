//! Lemmas that Farkas' lemma shows, over the counts and atoms of a formula: `specs/Lemma` has the definition, `laws` what it means.
#![tactic(auto)]

mod laws;

pub use laws::shown_lemma_holds;
