//! The syntax of parts that are read one after another: a list, or none as soon as a part is at fault.
ghost use Rattle.std.specs.Prelude.{◌≡◌, [], ◌∷◌, ◌++◌, MatchOption, None, OnOk, Some, if◌then◌else◌};
ghost use Rattle.pddl_form.specs.Faults.{first_with, shape};
ghost use Rattle.pddl_form.specs.Gather.{option_both, push};
ghost use Rattle.pddl_form.specs.Parts as parts;

use crate::fault::FirstFault;
use sexpr::Tree;
use sqlite_items::Items;
use std::alloc::{AllocError, Global};

/// Adds one part at the end.
pub fn add<T: Drop>(found: &mut Option<Items<T>>, one: Option<T>) -> Result<(), AllocError>
    ensures { OnOk result (found.new ≡ option_both push found.old one) }
{
    match (found.take(), one) {
        (Some(mut items), Some(one)) => {
            items.push(one)?;
            *found = Some(items);
            Ok(())
        }
        _ => Ok(()),
    }
}

/// Adds several parts at the end.
pub fn add_all<T: Drop>(
    found: &mut Option<Items<T>>,
    more: Option<Items<T>>,
) -> Result<(), AllocError>
    ensures { OnOk result (found.new ≡ option_both ◌++◌ found.old more) }
{
    match (found.take(), more) {
        (Some(mut items), Some(more)) => {
            items.append(more)?;
            *found = Some(items);
            Ok(())
        }
        _ => Ok(()),
    }
}

/// Both parts, where there are both.
pub fn pair<A: Drop, B: Drop>(left: Option<A>, right: Option<B>) -> Option<(A, B)>
    ensures { result ≡ option_both parts.pair left right }
{
    match (left, right) {
        (Some(left), Some(right)) => Some((left, right)),
        _ => None,
    }
}

/// The first of some trees, and those behind it.
pub fn parted(trees: &[Tree]) -> Option<(&Tree, &[Tree])>
    ensures { MatchOption result (trees.now ≡ []) (λ p. trees.now ≡ p.0.now ∷ p.1.now) }
{
    match trees {
        [] => None,
        [first, rest @ ..] => Some((first, rest)),
    }
}

/// What was made, where this holds, and else a fault of shape at a place.
pub fn provided<T: Drop>(
    alloc: Global,
    holds: bool,
    place: u32,
    made: Option<T>,
    faults: &mut FirstFault,
) -> Option<T>
    ensures made { result ≡ (if holds then made else None) }
    ensures noted { faults.new ≡ (if holds then faults.old else Some (first_with faults.old (shape place))) }
{
    if holds {
        return made;
    }
    faults.misshapen(alloc, place);
    None
}
