//! Words with their places. Begin with `read_word`: a word of a sort, or a fault at the tree that stands there.
ghost use Rattle.std.specs.Prelude.{◌≡◌, IfOk};
ghost use Rattle.pddl_form.specs.Reading.{Reads};
ghost use Rattle.pddl_form.specs.Words as words;

use crate::fault::FirstFault;
use crate::gather::add;
use crate::names::{Sort, takes};
use sexpr::{Text, Tree};
use sqlite_items::Items;
use std::alloc::{AllocError, Global};

/// A word in lower case, with the place of its first byte.
#[derive(Debug, Drop)]
pub struct Spot {
    pub text: Text,
    pub place: u32,
}

/// The text of a word; that of a list is empty.
#[tactic(auto, unfolding(crate::specs::Words::word_of))]
pub fn word(tree: &Tree) -> &str
    ensures { result.now ≡ words.word_of tree.now }
{
    match tree.text() {
        Some(text) => text,
        None => "",
    }
}

/// A copy of a word with its place.
pub fn make_spot(alloc: Global, tree: &Tree) -> Result<Spot, AllocError>
    ensures { IfOk result (λ s. s ≡ words.spot_of tree.now) }
{
    let text = Text::from_string(String::from_str(alloc, word(tree))?);
    Ok(Spot {
        text,
        place: tree.start(),
    })
}

/// A word of a sort.
#[tactic(auto, unfolding(crate::specs::Words::word_form, crate::specs::Judged::noted))]
pub fn read_word(
    alloc: Global,
    sort: Sort,
    tree: &Tree,
    faults: &mut FirstFault,
) -> Result<Option<Spot>, AllocError>
    ensures { Reads (words.word_form sort tree.now) faults.old faults.new result }
{
    if !takes(sort, word(tree)) {
        faults.misshapen(alloc, tree.start());
        return Ok(None);
    }
    let spot = make_spot(alloc, tree)?;
    Ok(Some(spot))
}

/// Words of a sort, one behind another.
pub fn read_words(
    alloc: Global,
    sort: Sort,
    trees: &[Tree],
    faults: &mut FirstFault,
) -> Result<Option<Items<Spot>>, AllocError>
    ensures { Reads (words.word_forms sort trees.now) faults.old faults.new result }
{
    let mut found = Some(Items::new(alloc));
    for tree in trees {
        let one = read_word(alloc, sort, tree, faults)?;
        add(&mut found, one)?;
    }
    Ok(found)
}
