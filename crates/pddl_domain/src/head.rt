//! Declared predicates and functions. Begin with `read_head`.
ghost use Rattle.std.specs.Prelude.{◌≡◌, codes, map};
ghost use Rattle.kw_table.specs.Table.{Rises};
ghost use Rattle.pddl_form.specs.Judged.{each, mapped};
ghost use Rattle.pddl_form.specs.Reading.{Reads};
ghost use Rattle.pddl_form.specs.Typed.{typed_list};
ghost use Rattle.pddl_form.specs.Words.{is_word};
ghost use Rattle.pddl_form.specs.declared.names.Sort.TheVariants.{Variable};
ghost use Rattle.pddl_domain.specs.Heads as heads;

use kw_table::{Table, rows};
use pddl_form::{
    FirstFault, Sort, Spot, Typed, add, add_all, is_dash, is_symbol, make_spot, parted, provided,
    read_typed_list, word,
};
use sexpr::Tree;
use sqlite_items::Items;
use std::alloc::{AllocError, Global};

/// A declared predicate or function.
#[derive(Debug, Drop)]
pub struct Head {
    pub name: Spot,
    pub params: Items<Typed>,
}

fn read_parameters(
    alloc: Global,
    name: &Tree,
    end: u32,
    params: &[Tree],
    faults: &mut FirstFault,
) -> Result<Option<Head>, AllocError>
    ensures { Reads (mapped (heads.headed name.now) (typed_list Variable end params.now)) faults.old faults.new result }
{
    let Some(params) = read_typed_list(alloc, Sort::Variable, end, params, faults)? else {
        return Ok(None);
    };
    let name = make_spot(alloc, name)?;
    Ok(Some(Head { name, params }))
}

/// A predicate or function with its parameters.
#[tactic(auto, unfolding(pddl_form::specs::Judged::noted, crate::specs::Heads::head_form))]
fn read_head(
    alloc: Global,
    tree: &Tree,
    faults: &mut FirstFault,
) -> Result<Option<Head>, AllocError>
    ensures { Reads (heads.head_form tree.now) faults.old faults.new result }
{
    let Tree::List { start, end, items } = tree else {
        faults.misshapen(alloc, tree.start());
        return Ok(None);
    };
    let [name, params @ ..] = items.as_slice() else {
        faults.lacking(alloc, *end);
        return Ok(None);
    };
    if !is_symbol(word(name)) {
        faults.misshapen(alloc, *start);
        return Ok(None);
    }
    read_parameters(alloc, name, *end, params, faults)
}

/// Predicates.
pub fn read_predicates(
    alloc: Global,
    trees: &[Tree],
    faults: &mut FirstFault,
) -> Result<Option<Items<Head>>, AllocError>
    ensures { Reads (each (map heads.head_form trees.now)) faults.old faults.new result }
{
    let mut found = Some(Items::new(alloc));
    for tree in trees {
        let one = read_head(alloc, tree, faults)?;
        add(&mut found, one)?;
    }
    Ok(found)
}

/// The type of functions.
const NUMBER: Table<1> = Table { words: ["number"] };

/// The table of this one word is in byte order.
pub fn number_rises()
    ensures { Rises (map (λ w. w.now) NUMBER.words) }
{}

fn is_number(tree: &Tree) -> bool
    ensures { result ≡ is_word (codes "number") tree.now }
{
    rows! {
        NUMBER, word(tree).as_bytes();
        "number" => true;
        else => false
    }
}

/// The word `number`, which adds no function.
#[tactic(auto, unfolding(pddl_form::specs::Judged::noted, crate::specs::Heads::number_mark))]
fn read_number_mark(
    alloc: Global,
    tree: &Tree,
    faults: &mut FirstFault,
) -> Result<Option<Items<Head>>, AllocError>
    ensures { Reads (heads.number_mark tree.now) faults.old faults.new result }
{
    let Tree::Word { .. } = tree else {
        faults.misshapen(alloc, tree.start());
        return Ok(None);
    };
    if is_number(tree) {
        return Ok(Some(Items::new(alloc)));
    }
    faults.feature(alloc, tree.start(), word(tree))?;
    Ok(None)
}

/// Functions, where a `-` and the word `number` may follow one or more of them; the list that they stand in ends before
/// a place.
#[tactic(auto, unfolding(crate::specs::Heads::functions))]
pub fn read_functions(
    alloc: Global,
    end: u32,
    trees: &[Tree],
    faults: &mut FirstFault,
) -> Result<Option<Items<Head>>, AllocError>
    ensures { Reads (heads.functions end trees.now) faults.old faults.new result }
{
    let mut found = Some(Items::new(alloc));
    let mut waits = false;
    let mut rest = trees;
    while let Some((tree, behind)) = parted(rest) {
        if is_dash(tree) {
            let so_far = provided(alloc, waits, tree.start(), found, faults);
            found = so_far;
            let Some((second, more)) = parted(behind) else {
                faults.lacking(alloc, end);
                return Ok(None);
            };
            let none = read_number_mark(alloc, second, faults)?;
            add_all(&mut found, none)?;
            waits = false;
            rest = more;
        } else {
            let one = read_head(alloc, tree, faults)?;
            add(&mut found, one)?;
            waits = true;
            rest = behind;
        }
    }
    Ok(found)
}
