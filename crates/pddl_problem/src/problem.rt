//! A problem. Begin with `read_problem`, then `read_parts`, which reads each section by a reader of its own.
ghost use Rattle.std.specs.Prelude.{◌≡◌, IfOk, IsTrue};
ghost use Rattle.sexpr.specs.declared.fault.Source.TheVariants.{Problem};
ghost use Rattle.pddl_form.specs.Reading.{Reads};
ghost use Rattle.pddl_form.specs.Parts.{one_part};
ghost use Rattle.pddl_condition.specs.Condition.{condition_form};
ghost use Rattle.pddl_form.specs.SectionParts.{parts_of};
ghost use Rattle.pddl_form.specs.Concluded.{Answers};
ghost use Rattle.pddl_problem.specs.Problem as problem;
ghost use Rattle.pddl_problem.specs.Grammar.{is_problem};
ghost use Rattle.pddl_problem.specs.inside.Made as made_spec;

use crate::ast::{InitAst, ProblemAst};
use crate::init::read_inits;
use pddl_condition::{CondAst, read_condition};
use pddl_form::{
    Definition, FirstFault, SectionWord, Sort, Spot, Typed, conclude, find_section,
    open_definition, parted, provided, read_only_name, read_requirements, read_section_words,
    read_title, read_typed_list,
};
use sexpr::{Source, TextRefusal, Tree};
use sqlite_items::Items;
use std::alloc::{AllocError, Global};

/// `(:domain NAME)`, which must be there.
#[tactic(auto, unfolding(crate::specs::Problem::domain_section, pddl_form::specs::Judged::noted))]
fn read_domain_name(
    alloc: Global,
    end: u32,
    sections: &[Tree],
    faults: &mut FirstFault,
) -> Result<Option<Spot>, AllocError>
    ensures { Reads (problem.domain_section end sections.now) faults.old faults.new result }
{
    match find_section(sections, SectionWord::Domain) {
        Some(section) => read_only_name(alloc, section.start, section.end, section.parts, faults),
        None => {
            faults.lacking(alloc, end);
            Ok(None)
        }
    }
}

/// `(:objects LIST)`.
#[tactic(auto, unfolding(crate::specs::Problem::objects_section, pddl_form::specs::Judged::noted))]
fn read_objects(
    alloc: Global,
    sections: &[Tree],
    faults: &mut FirstFault,
) -> Result<Option<Items<Typed>>, AllocError>
    ensures { Reads (problem.objects_section sections.now) faults.old faults.new result }
{
    match find_section(sections, SectionWord::Objects) {
        Some(section) => read_typed_list(alloc, Sort::Name, section.end, section.parts, faults),
        None => Ok(Some(Items::new(alloc))),
    }
}

/// `(:init ITEM ..)`.
#[tactic(auto, unfolding(crate::specs::Problem::init_section, pddl_form::specs::Judged::noted))]
fn read_init_section(
    alloc: Global,
    sections: &[Tree],
    faults: &mut FirstFault,
) -> Result<Option<Items<InitAst>>, AllocError>
    ensures { Reads (problem.init_section sections.now) faults.old faults.new result }
{
    match find_section(sections, SectionWord::Init) {
        Some(section) => read_inits(alloc, section.parts, faults),
        None => Ok(Some(Items::new(alloc))),
    }
}

/// One condition and no more.
fn read_only_condition(
    alloc: Global,
    start: u32,
    end: u32,
    parts: &[Tree],
    faults: &mut FirstFault,
) -> Result<Option<Items<CondAst>>, AllocError>
    ensures { Reads (one_part condition_form start end parts.now) faults.old faults.new result }
{
    let Some((first, more)) = parted(parts) else {
        faults.lacking(alloc, end);
        return Ok(None);
    };
    let leaves = read_condition(alloc, first, faults)?;
    let none_left = more.is_empty();
    Ok(provided(alloc, none_left, start, leaves, faults))
}

/// `(:goal CONDITION)`, which must be there.
#[tactic(auto, unfolding(crate::specs::Problem::goal_section, pddl_form::specs::Judged::noted))]
fn read_goal(
    alloc: Global,
    end: u32,
    sections: &[Tree],
    faults: &mut FirstFault,
) -> Result<Option<Items<CondAst>>, AllocError>
    ensures { Reads (problem.goal_section end sections.now) faults.old faults.new result }
{
    match find_section(sections, SectionWord::Goal) {
        Some(section) => {
            read_only_condition(alloc, section.start, section.end, section.parts, faults)
        }
        None => {
            faults.lacking(alloc, end);
            Ok(None)
        }
    }
}

/// The problem, where all its parts are there.
fn make_problem(
    name: Option<Spot>,
    domain: Option<Spot>,
    objects: Option<Items<Typed>>,
    init: Option<Items<InitAst>>,
    goal: Option<Items<CondAst>>,
) -> Option<ProblemAst>
    ensures { result ≡ made_spec.whole_made name domain objects init goal }
{
    Some(ProblemAst {
        name: name?,
        domain: domain?,
        objects: objects?,
        init: init?,
        goal: goal?,
    })
}

/// All parts of a problem. None is left out for a fault in front of it.
fn read_parts(
    alloc: Global,
    definition: &Definition,
    faults: &mut FirstFault,
) -> Result<Option<ProblemAst>, AllocError>
    ensures { Reads (problem.problem_parts (parts_of definition.now)) faults.old faults.new result }
{
    let sections = definition.sections;
    let end = definition.end;
    let known = read_section_words(alloc, Source::Problem, sections, faults)?;
    let requirements = read_requirements(alloc, sections, faults)?;
    let name = read_title(alloc, Source::Problem, definition.title, faults)?;
    let domain = read_domain_name(alloc, end, sections, faults)?;
    let objects = read_objects(alloc, sections, faults)?;
    let init = read_init_section(alloc, sections, faults)?;
    let goal = read_goal(alloc, end, sections, faults)?;
    let problem = make_problem(name, domain, objects, init, goal);
    Ok(known.and(requirements).and(problem))
}

/// The whole text.
fn read_form(
    alloc: Global,
    tree: &Tree,
    faults: &mut FirstFault,
) -> Result<Option<ProblemAst>, AllocError>
    ensures { Reads (problem.problem_form tree.now) faults.old faults.new result }
{
    let Some(definition) = open_definition(alloc, tree, faults) else {
        return Ok(None);
    };
    read_parts(alloc, &definition, faults)
}

/// The problem that a tree spells, or else the first fault of its shape.
pub fn read_problem(alloc: Global, tree: &Tree) -> Result<ProblemAst, TextRefusal>
    ensures answers { Answers Problem (problem.problem_form tree.now) result }
    ensures grammar { IfOk result (λ made. IsTrue (is_problem made)) }
{
    let mut faults = FirstFault::new();
    match read_form(alloc, tree, &mut faults) {
        Ok(made) => conclude(Source::Problem, made, faults),
        Err(_) => Err(TextRefusal::Memory),
    }
}
