//! Sections, which are looked for by their words. Begin with `find_section`, by which a reader of one section finds its
//! contents.
ghost use Rattle.std.specs.Prelude.{◌≡◌, ◌<◌, IfSome, Some, map, slice_get};
ghost use Rattle.std.specs.Option.{option_map};
ghost use Rattle.kw_table.specs.Table.{Finds, Rises};
ghost use Rattle.pddl_form.specs.Words.{is_word};
ghost use Rattle.pddl_form.specs.Sections as sections_spec;
ghost use Rattle.pddl_form.specs.SectionParts as parts;

use crate::spot::word;
use kw_table::Table;
use sexpr::Tree;

/// A list of trees, and where the list that they stand in starts and ends.
#[derive(Clone, Copy)]
pub struct Section<'a> {
    pub start: u32,
    pub end: u32,
    pub parts: &'a [Tree],
}

/// How many words there are.
pub const WORDS: usize = 17;

const SECTIONS: Table<WORDS> = Table {
    words: [
        ":action",
        ":constants",
        ":constraints",
        ":derived",
        ":domain",
        ":durative-action",
        ":event",
        ":functions",
        ":goal",
        ":init",
        ":length",
        ":metric",
        ":objects",
        ":predicates",
        ":process",
        ":requirements",
        ":types",
    ],
};

/// The words of sections stand in byte order.
pub fn section_words_rise()
    ensures { Rises (map (λ w. w.now) SECTIONS.words) }
{}

/// A word that a section starts with. They stand in the order of the table, so that the number of each is its index.
#[derive(Clone, Copy)]
pub enum SectionWord {
    Action,
    Constants,
    Constraints,
    Derived,
    Domain,
    DurativeAction,
    Event,
    Functions,
    Goal,
    Init,
    Length,
    Metric,
    Objects,
    Predicates,
    Process,
    Requirements,
    Types,
}

/// The index of a word in the table, where it is that of a section in some text.
pub fn find_word(text: &str) -> Option<usize>
    ensures found { Finds sections_spec.section_words text.now result }
    ensures within { IfSome result (λ at. at < WORDS) }
{
    SECTIONS.find(text.as_bytes())
}

/// The index of a word in the table.
fn section_index(wanted: SectionWord) -> usize
    ensures { slice_get sections_spec.section_words result ≡ Some (sections_spec.section_word wanted) }
{
    wanted as usize
}

/// Whether a tree is this word.
fn is_section_word(wanted: SectionWord, head: &Tree) -> bool
    ensures { result ≡ is_word (sections_spec.section_word wanted) head.now }
{
    find_word(word(head)) == Some(section_index(wanted))
}

/// What stands behind a word, where the tree is a list that starts with it.
#[tactic(auto, unfolding(crate::specs::Sections::contents_behind))]
pub fn section_behind<'a>(tree: &'a Tree, wanted: SectionWord) -> Option<Section<'a>>
    ensures { option_map parts.contents_of result ≡ sections_spec.contents_behind (sections_spec.section_word wanted) tree.now }
{
    let Tree::List { start, end, items } = tree else {
        return None;
    };
    let [head, parts @ ..] = items.as_slice() else {
        return None;
    };
    if !is_section_word(wanted, head) {
        return None;
    }
    Some(Section {
        start: *start,
        end: *end,
        parts,
    })
}

/// The first section with a word.
pub fn find_section<'a>(sections: &'a [Tree], wanted: SectionWord) -> Option<Section<'a>>
    ensures { option_map parts.contents_of result ≡ sections_spec.section_with (sections_spec.section_word wanted) sections.now }
{
    for tree in sections {
        if let Some(section) = section_behind(tree, wanted) {
            return Some(section);
        }
    }
    None
}
