//! Typed lists. Begin with `read_typed_list`: names or variables, where a `-` and a type may follow one or more of them.
ghost use Rattle.std.specs.Prelude.{◌≡◌, IfOk, codes, map};
ghost use Rattle.kw_table.specs.Table.{Rises};
ghost use Rattle.pddl_form.specs.Gather.{option_both};
ghost use Rattle.pddl_form.specs.Judged.{mapped};
ghost use Rattle.pddl_form.specs.Reading.{Reads};
ghost use Rattle.pddl_form.specs.Words.{is_word, word_form};
ghost use Rattle.pddl_form.specs.declared.names.Sort.TheVariants.{Name};
ghost use Rattle.pddl_form.specs.Typed as typed;

use crate::fault::FirstFault;
use crate::gather::{add, add_all, parted, provided};
use crate::names::Sort;
use crate::spot::{Spot, read_word, read_words, word};
use kw_table::{Table, rows};
use sexpr::{Text, Tree};
use sqlite_items::Items;
use std::alloc::{AllocError, Global};

/// A declared name with the types it is written with; none where no type is written.
#[derive(Debug, Drop)]
pub struct Typed {
    pub name: Spot,
    pub types: Items<Spot>,
}

/// The word behind which a type stands.
const DASH: Table<1> = Table { words: ["-"] };

/// The head of a type that is one of several.
const EITHER: Table<1> = Table { words: ["either"] };

/// The tables of the words of typed lists are in byte order.
pub fn type_words_rise()
    ensures dash { Rises (map (λ w. w.now) DASH.words) }
    ensures either { Rises (map (λ w. w.now) EITHER.words) }
{}

/// Whether a type stands behind this tree: whether it is the word `-`.
pub fn is_dash(tree: &Tree) -> bool
    ensures { result ≡ is_word (codes "-") tree.now }
{
    rows! {
        DASH, word(tree).as_bytes();
        "-" => true;
        else => false
    }
}

fn is_either(head: &Tree) -> bool
    ensures { result ≡ is_word (codes "either") head.now }
{
    rows! {
        EITHER, word(head).as_bytes();
        "either" => true;
        else => false
    }
}

/// `(either NAME ..)`, of which the names are given; only variables may have such a type.
#[tactic(auto, unfolding(crate::specs::Judged::noted))]
fn read_either(
    alloc: Global,
    sort: Sort,
    head: &Tree,
    end: u32,
    names: &[Tree],
    faults: &mut FirstFault,
) -> Result<Option<Items<Spot>>, AllocError>
    ensures { Reads (typed.either_form sort head.now end names.now) faults.old faults.new result }
{
    match sort {
        Sort::Variable => {
            let found = read_words(alloc, Sort::Name, names, faults)?;
            Ok(provided(
                alloc,
                !names.is_empty(),
                end.saturating_sub(1),
                found,
                faults,
            ))
        }
        Sort::Name | Sort::Term | Sort::Keyword => {
            faults.feature(alloc, head.start(), word(head))?;
            Ok(None)
        }
    }
}

#[tactic(auto, unfolding(crate::specs::Judged::noted))]
fn read_type_list(
    alloc: Global,
    sort: Sort,
    start: u32,
    end: u32,
    items: &[Tree],
    faults: &mut FirstFault,
) -> Result<Option<Items<Spot>>, AllocError>
    ensures { Reads (typed.type_list sort start end items.now) faults.old faults.new result }
{
    let [head, names @ ..] = items else {
        let place = match sort {
            Sort::Variable => end.saturating_sub(1),
            Sort::Name | Sort::Term | Sort::Keyword => start,
        };
        faults.misshapen(alloc, place);
        return Ok(None);
    };
    if is_either(head) {
        return read_either(alloc, sort, head, end, names, faults);
    }
    faults.misshapen(alloc, start);
    Ok(None)
}

fn read_one_type(
    alloc: Global,
    tree: &Tree,
    faults: &mut FirstFault,
) -> Result<Option<Items<Spot>>, AllocError>
    ensures { Reads (mapped typed.only (word_form Name tree.now)) faults.old faults.new result }
{
    let Some(name) = read_word(alloc, Sort::Name, tree, faults)? else {
        return Ok(None);
    };
    let mut types = Items::new(alloc);
    types.push(name)?;
    Ok(Some(types))
}

/// The types behind a `-`.
#[tactic(auto, unfolding(crate::specs::Typed::type_form))]
fn read_type(
    alloc: Global,
    sort: Sort,
    tree: &Tree,
    faults: &mut FirstFault,
) -> Result<Option<Items<Spot>>, AllocError>
    ensures { Reads (typed.type_form sort tree.now) faults.old faults.new result }
{
    match tree {
        Tree::Word { .. } => read_one_type(alloc, tree, faults),
        Tree::List { start, end, items } => {
            read_type_list(alloc, sort, *start, *end, items.as_slice(), faults)
        }
    }
}

fn copy_spot(alloc: Global, spot: &Spot) -> Result<Spot, AllocError>
    ensures { IfOk result (λ s. s ≡ spot.now) }
{
    let text = Text::from_string(String::from_str(alloc, spot.text.as_str())?);
    Ok(Spot {
        text,
        place: spot.place,
    })
}

fn copy_spots(alloc: Global, spots: &[Spot]) -> Result<Items<Spot>, AllocError>
    ensures { IfOk result (λ found. found ≡ spots.now) }
{
    let mut found = Items::new(alloc);
    for spot in spots {
        let one = copy_spot(alloc, spot)?;
        found.push(one)?;
    }
    Ok(found)
}

/// Each name with a copy of the types.
fn all_with_types(alloc: Global, names: &[Spot], types: &[Spot]) -> Result<Items<Typed>, AllocError>
    ensures { IfOk result (λ found. found ≡ typed.all_with_types names.now types.now) }
{
    let mut found = Items::new(alloc);
    for spot in names {
        let name = copy_spot(alloc, spot)?;
        let types = copy_spots(alloc, types)?;
        found.push(Typed { name, types })?;
    }
    Ok(found)
}

fn give_types(
    alloc: Global,
    names: Option<Items<Spot>>,
    types: Option<Items<Spot>>,
) -> Result<Option<Items<Typed>>, AllocError>
    ensures { IfOk result (λ found. found ≡ option_both typed.all_with_types names types) }
{
    match (names, types) {
        (Some(names), Some(types)) => {
            let found = all_with_types(alloc, names.as_slice(), types.as_slice())?;
            Ok(Some(found))
        }
        _ => Ok(None),
    }
}

/// Whether some item waits for a type; one at fault counts.
fn has_item(waiting: &Option<Items<Spot>>) -> bool
    ensures { result ≡ typed.has_item waiting.now }
{
    match waiting {
        None => true,
        Some(names) => names.len() != 0,
    }
}

/// Names or variables, with the types behind them; the list that they stand in ends before a place.
#[tactic(auto, unfolding(crate::specs::Typed::typed_list))]
pub fn read_typed_list(
    alloc: Global,
    sort: Sort,
    end: u32,
    trees: &[Tree],
    faults: &mut FirstFault,
) -> Result<Option<Items<Typed>>, AllocError>
    ensures { Reads (typed.typed_list sort end trees.now) faults.old faults.new result }
{
    let mut found = Some(Items::new(alloc));
    let mut waiting = Some(Items::new(alloc));
    let mut rest = trees;
    while let Some((tree, behind)) = parted(rest) {
        if is_dash(tree) {
            let named = has_item(&waiting);
            let names = provided(alloc, named, tree.start(), waiting, faults);
            let Some((second, more)) = parted(behind) else {
                faults.lacking(alloc, end);
                return Ok(None);
            };
            let types = read_type(alloc, sort, second, faults)?;
            let group = give_types(alloc, names, types)?;
            add_all(&mut found, group)?;
            waiting = Some(Items::new(alloc));
            rest = more;
        } else {
            let one = read_word(alloc, sort, tree, faults)?;
            add(&mut waiting, one)?;
            rest = behind;
        }
    }
    let last = give_types(alloc, waiting, Some(Items::new(alloc)))?;
    add_all(&mut found, last)?;
    Ok(found)
}
