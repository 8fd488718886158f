//! Items of the initial state: an atom, the negation of one, or the value of a function. The head of its list decides
//! which, by the table of heads. Begin with `read_init`.
ghost use Rattle.std.specs.Prelude.{◌≡◌, map};
ghost use Rattle.std.specs.Option.{option_map};
ghost use Rattle.kw_table.specs.Table.{Rises};
ghost use Rattle.pddl_form.specs.Judged.{each};
ghost use Rattle.pddl_form.specs.Reading.{Reads};
ghost use Rattle.pddl_form.specs.Calls.{call_form};
ghost use Rattle.pddl_form.specs.Parts.{two_parts};
ghost use Rattle.pddl_form.specs.declared.names.Sort.TheVariants.{Name};
ghost use Rattle.pddl_problem.specs.Init as init_spec;

use crate::ast::InitAst;
use frac128::Frac;
use kw_table::{Table, rows};
use pddl_condition::{note_unread, read_negated_atom, read_number};
use pddl_form::{
    Call, FirstFault, Sort, add, is_symbol, pair, parted, provided, read_arguments, read_call, word,
};
use sexpr::Tree;
use sqlite_items::Items;
use std::alloc::{AllocError, Global};

/// What the head of a list makes of it.
#[derive(Clone, Copy)]
pub enum Head {
    /// `=`, of a value.
    Equal,
    At,
    Not,
    Predicate,
    Other,
}

const HEADS: Table<3> = Table {
    words: ["=", "at", "not"],
};

/// The heads of items stand in byte order.
pub fn init_heads_rise()
    ensures { Rises (map (λ w. w.now) HEADS.words) }
{}

/// The head of an atom, or of no item.
fn other_head(text: &str) -> Head
    ensures { result ≡ init_spec.other_head text.now }
{
    if is_symbol(text) {
        Head::Predicate
    } else {
        Head::Other
    }
}

#[tactic(auto, using(crate::proofs::Heads::head_rows))]
fn find_head(text: &str) -> Head
    ensures { result ≡ init_spec.head_of text.now }
{
    rows! {
        HEADS, text.as_bytes();
        "=" => Head::Equal,
        "at" => Head::At,
        "not" => Head::Not;
        else => other_head(text)
    }
}

/// The atom, where it is there.
fn make_put(pos: bool, place: u32, call: Option<Call>) -> Option<InitAst>
    ensures { result ≡ option_map (init_spec.put_item pos place) call }
{
    let Call { name, args } = call?;
    Some(InitAst::Put {
        pos,
        name,
        args,
        place,
    })
}

/// The value with its function, where both are there.
fn make_value(place: u32, first: Option<(Call, Frac)>) -> Option<InitAst>
    ensures { result ≡ option_map (init_spec.value_item place) first }
{
    let (Call { name, args }, value) = first?;
    Some(InitAst::Value {
        name,
        args,
        value,
        place,
    })
}

/// A word that spells a number.
#[tactic(auto, unfolding(crate::specs::Init::value_form, pddl_form::specs::Judged::noted))]
fn read_value(
    alloc: Global,
    tree: &Tree,
    faults: &mut FirstFault,
) -> Result<Option<Frac>, AllocError>
    ensures { Reads (init_spec.value_form tree.now) faults.old faults.new result }
{
    match tree {
        Tree::Word { start, text, .. } => read_number(alloc, text.as_str(), *start, faults),
        Tree::List { start, .. } => {
            faults.misshapen(alloc, *start);
            Ok(None)
        }
    }
}

/// `(NAME name ..)`.
fn read_true_atom(
    alloc: Global,
    start: u32,
    head: &Tree,
    parts: &[Tree],
    faults: &mut FirstFault,
) -> Result<Option<InitAst>, AllocError>
    ensures { Reads (init_spec.true_atom start head.now parts.now) faults.old faults.new result }
{
    let call = read_arguments(alloc, Sort::Name, head, parts, faults)?;
    Ok(make_put(true, start, call))
}

/// `(not (NAME name ..))`.
fn read_false_atom(
    alloc: Global,
    start: u32,
    end: u32,
    head: &Tree,
    parts: &[Tree],
    faults: &mut FirstFault,
) -> Result<Option<InitAst>, AllocError>
    ensures { Reads (init_spec.false_atom start end head.now parts.now) faults.old faults.new result }
{
    let call = read_negated_atom(alloc, Sort::Name, start, end, head, parts, faults)?;
    Ok(make_put(false, start, call))
}

/// What stands behind the `=`: a function with its arguments, a number and no more.
fn read_call_and_value(
    alloc: Global,
    start: u32,
    end: u32,
    parts: &[Tree],
    faults: &mut FirstFault,
) -> Result<Option<(Call, Frac)>, AllocError>
    ensures { Reads (two_parts (call_form Name) init_spec.value_form start end parts.now) faults.old faults.new result }
{
    let Some((first, rest)) = parted(parts) else {
        faults.lacking(alloc, end);
        return Ok(None);
    };
    let call = read_call(alloc, Sort::Name, first, faults)?;
    let Some((second, more)) = parted(rest) else {
        faults.lacking(alloc, end);
        return Ok(None);
    };
    let value = read_value(alloc, second, faults)?;
    let both = pair(call, value);
    let none_left = more.is_empty();
    Ok(provided(alloc, none_left, start, both, faults))
}

/// `(= (NAME name ..) NUMBER)`.
fn read_first_value(
    alloc: Global,
    start: u32,
    end: u32,
    parts: &[Tree],
    faults: &mut FirstFault,
) -> Result<Option<InitAst>, AllocError>
    ensures { Reads (init_spec.first_value start end parts.now) faults.old faults.new result }
{
    let first = read_call_and_value(alloc, start, end, parts, faults)?;
    Ok(make_value(start, first))
}

/// Whether a word and a list stand behind the word `at`.
fn is_timed(parts: &[Tree]) -> bool
    ensures { result ≡ init_spec.is_timed parts.now }
{
    match parts {
        [time, literal] => !time.is_list() && literal.is_list(),
        _ => false,
    }
}

/// `(at NAME ..)`, or a timed literal, which isn't read.
fn read_at(
    alloc: Global,
    start: u32,
    head: &Tree,
    parts: &[Tree],
    faults: &mut FirstFault,
) -> Result<Option<InitAst>, AllocError>
    ensures { Reads (init_spec.at_item start head.now parts.now) faults.old faults.new result }
{
    if is_timed(parts) {
        note_unread(alloc, head, faults)
    } else {
        read_true_atom(alloc, start, head, parts, faults)
    }
}

/// A list with this head and these trees behind it.
#[tactic(auto, unfolding(crate::specs::Init::headed_init, pddl_form::specs::Judged::noted))]
fn read_headed(
    alloc: Global,
    start: u32,
    end: u32,
    head: &Tree,
    parts: &[Tree],
    faults: &mut FirstFault,
) -> Result<Option<InitAst>, AllocError>
    ensures { Reads (init_spec.headed_init start end head.now parts.now) faults.old faults.new result }
{
    match find_head(word(head)) {
        Head::Equal => read_first_value(alloc, start, end, parts, faults),
        Head::At => read_at(alloc, start, head, parts, faults),
        Head::Not => read_false_atom(alloc, start, end, head, parts, faults),
        Head::Predicate => read_true_atom(alloc, start, head, parts, faults),
        Head::Other => {
            faults.misshapen(alloc, start);
            Ok(None)
        }
    }
}

/// An item of the initial state.
#[tactic(auto, unfolding(crate::specs::Init::init_form, pddl_form::specs::Judged::noted))]
fn read_init(
    alloc: Global,
    tree: &Tree,
    faults: &mut FirstFault,
) -> Result<Option<InitAst>, AllocError>
    ensures { Reads (init_spec.init_form tree.now) faults.old faults.new result }
{
    let Tree::List { start, end, items } = tree else {
        faults.misshapen(alloc, tree.start());
        return Ok(None);
    };
    let [head, parts @ ..] = items.as_slice() else {
        faults.lacking(alloc, *end);
        return Ok(None);
    };
    read_headed(alloc, *start, *end, head, parts, faults)
}

/// Items, one behind another.
pub fn read_inits(
    alloc: Global,
    trees: &[Tree],
    faults: &mut FirstFault,
) -> Result<Option<Items<InitAst>>, AllocError>
    ensures { Reads (each (map init_spec.init_form trees.now)) faults.old faults.new result }
{
    let mut found = Some(Items::new(alloc));
    for tree in trees {
        let one = read_init(alloc, tree, faults)?;
        add(&mut found, one)?;
    }
    Ok(found)
}
