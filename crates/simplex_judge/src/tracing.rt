//! The trace of a check that stopped. Begin with `trace`.
ghost use Rattle.std.specs.Prelude.{◌≡◌, IfOk};
ghost use Rattle.simplex_judge.specs.Stuck.{swaps_of};
ghost use Rattle.simplex_judge.specs.inside.Traced.{IsTraced};

use crate::beginning::Begun;
use frac128::Wide;
use sqlite_items::Items;
use std::alloc::{AllocError, Global};
use theory_law::{Lemma, Site, Swap, Trace};

fn listed(alloc: Global, pairs: &[(u64, u64)]) -> Result<Vec<Swap>, AllocError>
    ensures { IfOk result (λ v. swaps_of v.items ≡ pairs.now) }
{
    let mut swaps = Vec::new(alloc);
    for pair in pairs {
        swaps.push(Swap {
            leave: pair.0,
            enter: pair.1,
        })?;
    }
    Ok(swaps)
}

/// The basis and the literals that the check began with, its pivots, and why it stopped.
pub fn trace(
    alloc: Global,
    begun: Begun,
    pairs: &[(u64, u64)],
    site: Site,
    wide: Option<Wide>,
    lemma: Option<Lemma>,
) -> Result<Trace, AllocError>
    ensures { IfOk result (IsTraced begun pairs.now site wide lemma) }
{
    let pivots = listed(alloc, pairs)?;
    Ok(Trace {
        basis: Items::from_vec(begun.basis),
        lits: Items::from_vec(begun.lits),
        pivots: Items::from_vec(pivots),
        site,
        wide,
        lemma,
    })
}
