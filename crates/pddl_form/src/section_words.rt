//! The word of each section, which is judged whatever the section has. Begin with `read_section_words`.
ghost use Rattle.std.specs.Prelude.{List};
ghost use Rattle.sexpr.specs.declared.tree.Tree.{Tree};
ghost use Rattle.sexpr.specs.Opened.{text_of};
ghost use Rattle.pddl_form.specs.Reading.{Reads};
ghost use Rattle.pddl_form.specs.Sections as sections_spec;
ghost use Rattle.pddl_form.specs.inside.Seen as inside;

use crate::fault::FirstFault;
use crate::gather::provided;
use crate::kinds::{Kind, find_kind};
use crate::seen::Seen;
use sexpr::{Source, Tree};
use std::alloc::{AllocError, Global};

/// The word of a section, which one in front of it has or not.
#[tactic(auto, unfolding(crate::specs::Judged::noted))]
fn read_section_word(
    alloc: Global,
    kind: Kind,
    stands_twice: bool,
    place: u32,
    text: &str,
    faults: &mut FirstFault,
) -> Result<Option<()>, AllocError>
    ensures { Reads (sections_spec.section_by kind stands_twice place text.now) faults.old faults.new result }
{
    match kind {
        Kind::Many => Ok(Some(())),
        Kind::Once => Ok(provided(alloc, !stands_twice, place, Some(()), faults)),
        Kind::Unread => {
            faults.feature(alloc, place, text)?;
            Ok(None)
        }
        Kind::Unknown => {
            faults.misshapen(alloc, place);
            Ok(None)
        }
    }
}

/// A section that starts with this tree, behind others.
fn read_section_head(
    alloc: Global,
    file: Source,
    seen: &Seen,
    start: u32,
    head: &Tree,
    faults: &mut FirstFault,
) -> Result<Option<()>, AllocError>
    ensures { (front : List Tree) → inside.HasSeen front seen.now.flags → Reads (sections_spec.section_head file front start head.now (text_of head.now)) faults.old faults.new result }
{
    match head.text() {
        Some(text) => {
            let kind = find_kind(file, text);
            let stands_twice = seen.has(text);
            read_section_word(alloc, kind, stands_twice, head.start(), text, faults)
        }
        None => {
            faults.misshapen(alloc, start);
            Ok(None)
        }
    }
}

/// A section behind others: a list whose word may stand there.
#[tactic(auto, unfolding(crate::specs::Sections::section_form, crate::specs::Judged::noted))]
fn read_one_section(
    alloc: Global,
    file: Source,
    seen: &Seen,
    tree: &Tree,
    faults: &mut FirstFault,
) -> Result<Option<()>, AllocError>
    ensures { (front : List Tree) → inside.HasSeen front seen.now.flags → Reads (sections_spec.section_form file front tree.now) faults.old faults.new result }
{
    let Tree::List { start, end, items } = tree else {
        faults.misshapen(alloc, tree.start());
        return Ok(None);
    };
    let [head, ..] = items.as_slice() else {
        faults.lacking(alloc, *end);
        return Ok(None);
    };
    read_section_head(alloc, file, seen, *start, head, faults)
}

/// The words of all sections of a domain or of a problem.
pub fn read_section_words(
    alloc: Global,
    file: Source,
    sections: &[Tree],
    faults: &mut FirstFault,
) -> Result<Option<()>, AllocError>
    ensures { Reads (sections_spec.sections_form file sections.now) faults.old faults.new result }
{
    let mut seen = Seen::new();
    let mut all = Some(());
    for tree in sections {
        let one = read_one_section(alloc, file, &seen, tree, faults)?;
        seen.add(tree);
        all = all.and(one);
    }
    Ok(all)
}
