//! The rows that were written take the place of those before them, and the solved row that of the variable that enters.
ghost use Rattle.std.specs.Prelude.{◌≡◌, ◌≢◌, ◌<◌, Vec, length, slice_index_or};
ghost use Rattle.std.specs.Global.{Global};
ghost use Rattle.frac128.specs.declared.fraction.Frac.{Frac};
ghost use Rattle.tableau.specs.inside.Exchange.{IsExchanged};

use frac128::Frac;
use std::mem;

/// Afterwards `rows` are those of `next`, with the solved one at e and the empty one of e at r; `next` are the old ones, with
/// that of r at e; and `solved` is the room that was at r.
pub(crate) fn exchange(
    rows: &mut Vec<Vec<Frac>>,
    next: &mut Vec<Vec<Frac>>,
    solved: &mut Vec<Frac>,
    r: usize,
    e: usize,
)
    requires leaving { r < length next.old.items }
    requires entering { e < length next.old.items }
    requires apart { r ≢ e }
    requires many { length rows.old.items ≡ length next.old.items }
    ensures rows { IsExchanged next.old.items solved.old r e rows.new.items }
    ensures next { (d : Vec Frac Global) → IsExchanged rows.old.items (slice_index_or rows.old.items r d) r e next.new.items }
    ensures solved { (d : Vec Frac Global) → solved.new ≡ slice_index_or next.old.items r d }
{
    mem::swap(&mut next[r], solved);
    mem::swap(rows, next);
    rows.swap(r, e);
    next.swap(r, e);
}
