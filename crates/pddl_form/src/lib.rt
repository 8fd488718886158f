//! What the texts of a domain and of a problem are made of: words, typed lists and sections, each read from a tree with
//! exact faults. Expressions and conditions stand above, in `pddl_condition`.
//!
//! A reader goes on behind a fault, over each part that has a place in the form there: it answers the syntax, or none,
//! and keeps in a `FirstFault` the fault that counts. Begin with `FirstFault`, then `read_word`, the smallest reader.
#![tactic(auto)]

mod calls;
mod definition;
mod fault;
mod gather;
mod kinds;
mod laws;
mod names;
mod section_words;
mod sections;
mod seen;
mod spot;
mod typed;

pub use calls::{Call, read_arguments, read_call};
pub use definition::{
    Definition, define_rises, open_definition, read_only_name, read_requirements, read_title,
    title_words_rise,
};
pub use fault::{Fault, FirstFault, conclude};
pub use gather::{add, add_all, pair, parted, provided};
pub use kinds::sections_of_texts_rise;
pub use laws::{first_fault_is_least, typed_list_is_groups};
pub use names::{Sort, is_symbol, reserved_words_rise, takes};
pub use section_words::read_section_words;
pub use sections::{Section, SectionWord, find_section, section_behind, section_words_rise};
pub use spot::{Spot, make_spot, read_word, read_words, word};
pub use typed::{Typed, is_dash, read_typed_list, type_words_rise};
