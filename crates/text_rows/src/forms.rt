//! The forms that domains and problems are made of, each as a text by itself.
use patty_io::LIMIT;
use pddl_condition::{read_condition, read_expression};
use pddl_form::{FirstFault, Sort, Typed, read_section_words, read_typed_list};
use row_files::show_fault;
use sexpr::{Source, TextRefusal, Tree, read};
use std::alloc::{AllocError, Global};

/// The tree of a text. One that is longer than the readers take counts as want of memory.
pub fn tree_of(alloc: Global, file: Source, text: &[u8]) -> Result<Tree, TextRefusal> {
    if text.len() > LIMIT {
        return Err(TextRefusal::Memory);
    }
    read(alloc, file, text)
}

/// Adds names with the types that they are written with.
pub fn add_typed(alloc: Global, out: &mut String, names: &[Typed]) -> Result<(), AllocError> {
    for each in names {
        let name = each.name.text.as_str();
        out.push_str(format!(in alloc; " {name}:")?.as_str())?;
        for of in each.types.as_slice() {
            let of = of.text.as_str();
            out.push_str(format!(in alloc; "{of},")?.as_str())?;
        }
    }
    Ok(())
}

fn is_list(
    alloc: Global,
    sort: Sort,
    tree: &Tree,
    faults: &mut FirstFault,
) -> Result<bool, AllocError> {
    let items = tree.items().unwrap_or(&[]);
    let end = tree.end();
    Ok(read_typed_list(alloc, sort, end, items, faults)?.is_some())
}

fn are_sections(
    alloc: Global,
    file: Source,
    tree: &Tree,
    faults: &mut FirstFault,
) -> Result<bool, AllocError> {
    let items = tree.items().unwrap_or(&[]);
    Ok(read_section_words(alloc, file, items, faults)?.is_some())
}

/// Whether the form has a syntax; one that has no such name has none, and no fault.
fn has_syntax(
    alloc: Global,
    form: &str,
    tree: &Tree,
    faults: &mut FirstFault,
) -> Result<bool, AllocError> {
    match form {
        "condition" => Ok(read_condition(alloc, tree, faults)?.is_some()),
        "expression" => Ok(read_expression(alloc, tree, faults)?.is_some()),
        "variables" => is_list(alloc, Sort::Variable, tree, faults),
        "objects" => is_list(alloc, Sort::Name, tree, faults),
        "domain sections" => are_sections(alloc, Source::Domain, tree, faults),
        "problem sections" => are_sections(alloc, Source::Problem, tree, faults),
        _ => Ok(false),
    }
}

/// The first fault; there is a syntax exactly where there is none.
fn outcome(
    alloc: Global,
    fine: bool,
    faults: FirstFault,
    text: &[u8],
) -> Result<String, AllocError> {
    match faults.into_first() {
        None if fine => String::from_str(alloc, "fine"),
        Some(fault) if !fine => {
            show_fault(
                alloc,
                "form",
                fault.kind,
                fault.place,
                fault.word.as_str(),
                text,
            )
        }
        _ => String::from_str(alloc, "a syntax and a fault, or neither"),
    }
}

/// The first fault of a text as this form, or `fine`.
pub fn answer(alloc: Global, form: &str, text: &[u8]) -> Result<String, AllocError> {
    let Ok(tree) = tree_of(alloc, Source::Domain, text) else {
        return String::from_str(alloc, "no tree");
    };
    let mut faults = FirstFault::new();
    let fine = has_syntax(alloc, form, &tree, &mut faults)?;
    outcome(alloc, fine, faults, text)
}
