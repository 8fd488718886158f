//! What the texts of a domain and of a problem have in common: `(define (KIND NAME) section ..)`.
//!
//! Begin with `open_definition`, which takes a text apart, then `read_title`.
ghost use Rattle.std.specs.Prelude.{◌≡◌, codes, map};
ghost use Rattle.std.specs.Option.{option_map};
ghost use Rattle.kw_table.specs.Table.{Rises};
ghost use Rattle.pddl_form.specs.Reading.{IsRead, Reads};
ghost use Rattle.pddl_form.specs.Judged.{mapped};
ghost use Rattle.pddl_form.specs.Parts.{one_part};
ghost use Rattle.pddl_form.specs.Words.{is_word, word_form, word_forms};
ghost use Rattle.pddl_form.specs.declared.names.Sort.TheVariants.{Name, Keyword};
ghost use Rattle.pddl_form.specs.Sections as sections_spec;
ghost use Rattle.pddl_form.specs.SectionParts as parts;

use crate::fault::FirstFault;
use crate::gather::{parted, provided};
use crate::names::Sort;
use crate::sections::{SectionWord, find_section};
use crate::spot::{Spot, read_word, read_words, word};
use kw_table::{Table, rows};
use sexpr::{Source, Tree};
use std::alloc::{AllocError, Global};

/// The parts of a text: the tree in its title's place, its sections, and the place behind its closing parenthesis.
#[derive(Clone, Copy)]
pub struct Definition<'a> {
    pub title: &'a Tree,
    pub sections: &'a [Tree],
    pub end: u32,
}

fn read_requirement_words(
    alloc: Global,
    trees: &[Tree],
    faults: &mut FirstFault,
) -> Result<Option<()>, AllocError>
    ensures { Reads (mapped sections_spec.no_effect (word_forms Keyword trees.now)) faults.old faults.new result }
{
    let words = read_words(alloc, Sort::Keyword, trees, faults)?;
    Ok(words.and(Some(())))
}

/// The section `(:requirements WORD ..)`, which may be left out and has no effect.
#[tactic(auto, unfolding(crate::specs::Sections::requirements_form, crate::specs::Judged::noted))]
pub fn read_requirements(
    alloc: Global,
    sections: &[Tree],
    faults: &mut FirstFault,
) -> Result<Option<()>, AllocError>
    ensures { Reads (sections_spec.requirements_form sections.now) faults.old faults.new result }
{
    match find_section(sections, SectionWord::Requirements) {
        Some(section) => read_requirement_words(alloc, section.parts, faults),
        None => Ok(Some(())),
    }
}

/// One name and no more.
pub fn read_only_name(
    alloc: Global,
    start: u32,
    end: u32,
    parts: &[Tree],
    faults: &mut FirstFault,
) -> Result<Option<Spot>, AllocError>
    ensures { Reads (one_part (word_form Name) start end parts.now) faults.old faults.new result }
{
    let Some((first, more)) = parted(parts) else {
        faults.lacking(alloc, end);
        return Ok(None);
    };
    let name = read_word(alloc, Sort::Name, first, faults)?;
    let none_left = more.is_empty();
    Ok(provided(alloc, none_left, start, name, faults))
}

/// The words of titles.
const TITLES: Table<2> = Table {
    words: ["domain", "problem"],
};

/// The words of titles stand in byte order.
pub fn title_words_rise()
    ensures { Rises (map (λ w. w.now) TITLES.words) }
{}

/// Whether a tree is the word in the title of this text.
fn is_title(file: Source, head: &Tree) -> bool
    ensures { result ≡ is_word (sections_spec.title_word file) head.now }
{
    let found = rows! {
        TITLES, word(head).as_bytes();
        "domain" => Some(Source::Domain),
        "problem" => Some(Source::Problem);
        else => None
    };
    found == Some(file)
}

/// `(KIND NAME)`, where the kind is the word of this text.
#[tactic(auto, unfolding(crate::specs::Sections::title_form, crate::specs::Judged::noted))]
pub fn read_title(
    alloc: Global,
    file: Source,
    tree: &Tree,
    faults: &mut FirstFault,
) -> Result<Option<Spot>, AllocError>
    ensures { Reads (sections_spec.title_form (sections_spec.title_word file) tree.now) faults.old faults.new result }
{
    let Tree::List { start, end, items } = tree else {
        faults.misshapen(alloc, tree.start());
        return Ok(None);
    };
    let [head, parts @ ..] = items.as_slice() else {
        faults.lacking(alloc, *end);
        return Ok(None);
    };
    if !is_title(file, head) {
        faults.misshapen(alloc, *start);
        return Ok(None);
    }
    read_only_name(alloc, *start, *end, parts, faults)
}

/// The word that a text starts with.
const DEFINE: Table<1> = Table { words: ["define"] };

/// The table of this one word is in byte order.
pub fn define_rises()
    ensures { Rises (map (λ w. w.now) DEFINE.words) }
{}

fn is_define(head: &Tree) -> bool
    ensures { result ≡ is_word (codes "define") head.now }
{
    rows! {
        DEFINE, word(head).as_bytes();
        "define" => true;
        else => false
    }
}

/// The parts of a whole text.
#[tactic(auto, unfolding(crate::specs::Sections::definition_form, crate::specs::Judged::noted))]
pub fn open_definition<'a>(
    alloc: Global,
    tree: &'a Tree,
    faults: &mut FirstFault,
) -> Option<Definition<'a>>
    ensures { IsRead (sections_spec.definition_form tree.now) faults.old faults.new (option_map parts.parts_of result) }
{
    let Tree::List { start, end, items } = tree else {
        faults.misshapen(alloc, tree.start());
        return None;
    };
    let [head, parts @ ..] = items.as_slice() else {
        faults.lacking(alloc, *end);
        return None;
    };
    if !is_define(head) {
        faults.misshapen(alloc, *start);
        return None;
    }
    let [title, sections @ ..] = parts else {
        faults.lacking(alloc, *end);
        return None;
    };
    Some(Definition {
        title,
        sections,
        end: *end,
    })
}
