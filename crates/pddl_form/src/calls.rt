//! A predicate or a function with its arguments. Begin with `read_call`.
ghost use Rattle.pddl_form.specs.Reading.{Reads};
ghost use Rattle.pddl_form.specs.Calls as calls;

use crate::fault::FirstFault;
use crate::names::{Sort, is_symbol};
use crate::spot::{Spot, make_spot, read_words, word};
use sexpr::Tree;
use sqlite_items::Items;
use std::alloc::{AllocError, Global};

/// `(NAME WORD ..)`.
#[derive(Drop)]
pub struct Call {
    pub name: Spot,
    pub args: Items<Spot>,
}

/// The arguments behind a name.
#[tactic(auto, unfolding(crate::specs::Calls::arguments))]
pub fn read_arguments(
    alloc: Global,
    sort: Sort,
    head: &Tree,
    args: &[Tree],
    faults: &mut FirstFault,
) -> Result<Option<Call>, AllocError>
    ensures { Reads (calls.arguments sort head.now args.now) faults.old faults.new result }
{
    let Some(args) = read_words(alloc, sort, args, faults)? else {
        return Ok(None);
    };
    let name = make_spot(alloc, head)?;
    Ok(Some(Call { name, args }))
}

/// The whole list.
#[tactic(auto, unfolding(crate::specs::Calls::call_form, crate::specs::Judged::noted))]
pub fn read_call(
    alloc: Global,
    sort: Sort,
    tree: &Tree,
    faults: &mut FirstFault,
) -> Result<Option<Call>, AllocError>
    ensures { Reads (calls.call_form sort tree.now) faults.old faults.new result }
{
    let Tree::List { start, end, items } = tree else {
        faults.misshapen(alloc, tree.start());
        return Ok(None);
    };
    let [head, args @ ..] = items.as_slice() else {
        faults.lacking(alloc, *end);
        return Ok(None);
    };
    if !is_symbol(word(head)) {
        faults.misshapen(alloc, *start);
        return Ok(None);
    }
    read_arguments(alloc, sort, head, args, faults)
}
