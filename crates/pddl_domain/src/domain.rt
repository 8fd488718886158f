//! A domain. Begin with `read_domain`, then `read_parts`, which reads each section by a reader of its own.
//!
//! A section is looked for by its word, so the contents of one that isn't known or stands twice are left unread.
ghost use Rattle.std.specs.Prelude.{◌≡◌, IfOk, IsTrue};
ghost use Rattle.sexpr.specs.declared.tree.Tree.{Tree};
ghost use Rattle.sexpr.specs.declared.fault.Source.TheVariants.{Domain};
ghost use Rattle.pddl_form.specs.Concluded.{Answers};
ghost use Rattle.pddl_form.specs.Laws.{HasOneSyntax};
ghost use Rattle.pddl_form.specs.Reading.{Reads};
ghost use Rattle.pddl_form.specs.SectionParts.{parts_of};
ghost use Rattle.pddl_form.specs.Sections.{section_word};
ghost use Rattle.pddl_domain.specs.Domain as domain;
ghost use Rattle.pddl_domain.specs.Grammar.{is_domain};
ghost use Rattle.pddl_domain.specs.inside.Made.{whole_made};

use crate::action::{ActionAst, read_action};
use crate::head::{Head, read_functions, read_predicates};
use pddl_form::{
    Definition, FirstFault, SectionWord, Sort, Spot, Typed, add, conclude, find_section,
    open_definition, read_requirements, read_section_words, read_title, read_typed_list,
    section_behind,
};
use sexpr::{Source, TextRefusal, Tree};
use sqlite_items::Items;
use std::alloc::{AllocError, Global};

/// A domain as it is written.
#[derive(Debug, Drop)]
pub struct DomainAst {
    pub name: Spot,
    pub types: Items<Typed>,
    pub constants: Items<Typed>,
    pub preds: Items<Head>,
    pub funcs: Items<Head>,
    pub actions: Items<ActionAst>,
}

/// A section of names.
#[tactic(auto, unfolding(pddl_form::specs::Judged::noted))]
fn read_names(
    alloc: Global,
    word: SectionWord,
    sections: &[Tree],
    faults: &mut FirstFault,
) -> Result<Option<Items<Typed>>, AllocError>
    ensures { Reads (domain.listed domain.names_in (section_word word) sections.now) faults.old faults.new result }
{
    match find_section(sections, word) {
        Some(section) => read_typed_list(alloc, Sort::Name, section.end, section.parts, faults),
        None => Ok(Some(Items::new(alloc))),
    }
}

#[tactic(auto, unfolding(crate::specs::Domain::predicates_section, pddl_form::specs::Judged::noted))]
fn read_predicates_section(
    alloc: Global,
    sections: &[Tree],
    faults: &mut FirstFault,
) -> Result<Option<Items<Head>>, AllocError>
    ensures { Reads (domain.predicates_section sections.now) faults.old faults.new result }
{
    match find_section(sections, SectionWord::Predicates) {
        Some(section) => read_predicates(alloc, section.parts, faults),
        None => Ok(Some(Items::new(alloc))),
    }
}

#[tactic(auto, unfolding(crate::specs::Domain::functions_section, pddl_form::specs::Judged::noted))]
fn read_functions_section(
    alloc: Global,
    sections: &[Tree],
    faults: &mut FirstFault,
) -> Result<Option<Items<Head>>, AllocError>
    ensures { Reads (domain.functions_section sections.now) faults.old faults.new result }
{
    match find_section(sections, SectionWord::Functions) {
        Some(section) => read_functions(alloc, section.end, section.parts, faults),
        None => Ok(Some(Items::new(alloc))),
    }
}

/// All actions.
#[tactic(auto, unfolding(crate::specs::Domain::actions_section))]
fn read_actions(
    alloc: Global,
    sections: &[Tree],
    faults: &mut FirstFault,
) -> Result<Option<Items<ActionAst>>, AllocError>
    ensures { Reads (domain.actions_section sections.now) faults.old faults.new result }
{
    let mut found = Some(Items::new(alloc));
    for tree in sections {
        let Some(section) = section_behind(tree, SectionWord::Action) else {
            continue;
        };
        let one = read_action(alloc, section.end, section.parts, faults)?;
        add(&mut found, one)?;
    }
    Ok(found)
}

/// The domain, where all its parts are there.
fn make_domain(
    name: Option<Spot>,
    types: Option<Items<Typed>>,
    constants: Option<Items<Typed>>,
    preds: Option<Items<Head>>,
    funcs: Option<Items<Head>>,
    actions: Option<Items<ActionAst>>,
) -> Option<DomainAst>
    ensures { result ≡ whole_made name types constants preds funcs actions }
{
    Some(DomainAst {
        name: name?,
        types: types?,
        constants: constants?,
        preds: preds?,
        funcs: funcs?,
        actions: actions?,
    })
}

fn read_parts(
    alloc: Global,
    definition: &Definition,
    faults: &mut FirstFault,
) -> Result<Option<DomainAst>, AllocError>
    ensures { Reads (domain.domain_parts (parts_of definition.now)) faults.old faults.new result }
{
    let sections = definition.sections;
    let known = read_section_words(alloc, Source::Domain, sections, faults)?;
    let requirements = read_requirements(alloc, sections, faults)?;
    let name = read_title(alloc, Source::Domain, definition.title, faults)?;
    let types = read_names(alloc, SectionWord::Types, sections, faults)?;
    let constants = read_names(alloc, SectionWord::Constants, sections, faults)?;
    let preds = read_predicates_section(alloc, sections, faults)?;
    let funcs = read_functions_section(alloc, sections, faults)?;
    let actions = read_actions(alloc, sections, faults)?;
    let domain = make_domain(name, types, constants, preds, funcs, actions);
    Ok(known.and(requirements).and(domain))
}

fn read_form(
    alloc: Global,
    tree: &Tree,
    faults: &mut FirstFault,
) -> Result<Option<DomainAst>, AllocError>
    ensures { Reads (domain.domain_form tree.now) faults.old faults.new result }
{
    let Some(definition) = open_definition(alloc, tree, faults) else {
        return Ok(None);
    };
    read_parts(alloc, &definition, faults)
}

/// The domain that a tree spells, or else the first fault of its shape.
pub fn read_domain(alloc: Global, tree: &Tree) -> Result<DomainAst, TextRefusal>
    ensures answers { Answers Domain (domain.domain_form tree.now) result }
    ensures grammar { IfOk result (λ made. IsTrue (is_domain made)) }
{
    let mut faults = FirstFault::new();
    match read_form(alloc, tree, &mut faults) {
        Ok(made) => conclude(Source::Domain, made, faults),
        Err(_) => Err(TextRefusal::Memory),
    }
}

/// A tree without a fault has one syntax as a domain.
pub fn one_domain()
    ensures { (tree : Tree) → HasOneSyntax (domain.domain_form tree) }
{}
