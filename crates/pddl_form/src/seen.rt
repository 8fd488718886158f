//! Which words of sections stood in front, so that one that stands twice is found. Begin with `Seen`.
ghost use Rattle.std.specs.Prelude.{◌≡◌};
ghost use Rattle.pddl_form.specs.inside.Seen as inside;

use crate::sections::{WORDS, find_word};
use crate::spot::word;
use sexpr::Tree;

/// The word that a list starts with; any other tree has the empty one.
#[tactic(auto, unfolding(crate::specs::inside::Seen::first_word))]
fn first_word(tree: &Tree) -> &str
    ensures { result.now ≡ inside.first_word tree.now }
{
    let Tree::List { items, .. } = tree else {
        return "";
    };
    let [head, ..] = items.as_slice() else {
        return "";
    };
    word(head)
}

/// Which words the sections so far start with, each at its index in the table.
#[derive(Drop)]
pub struct Seen {
    flags: [bool; WORDS],
}

impl Seen {
    ghost use Rattle.std.specs.Prelude.{◌≡◌, List, [], IsTrue};
    ghost use Rattle.std.specs.Option.{is_some};
    ghost use Rattle.sexpr.specs.declared.tree.Tree.{Tree};
    ghost use Rattle.pddl_form.specs.Gather.{push};
    ghost use Rattle.pddl_form.specs.Names.{is_one_of};
    ghost use Rattle.pddl_form.specs.Sections.{section_with, section_words};
    ghost use Rattle.pddl_form.specs.inside.Seen.{HasSeen};

    pub fn new() -> Seen
        ensures { HasSeen [] result.flags }
    {
        Seen {
            flags: [false; WORDS],
        }
    }

    /// Whether a section so far has this word.
    pub fn has(&self, text: &str) -> bool
        ensures { (front : List Tree) → HasSeen front self.now.flags → IsTrue (is_one_of section_words text.now) → result ≡ is_some (section_with text.now front) }
    {
        match find_word(text) {
            Some(at) => self.flags[at],
            None => false,
        }
    }

    pub fn add(&mut self, tree: &Tree)
        ensures { (front : List Tree) → HasSeen front self.old.flags → HasSeen (push front tree.now) self.new.flags }
    {
        if let Some(at) = find_word(first_word(tree)) {
            self.flags[at] = true;
        }
    }
}
