//! The steps of a log. Booleans, variables and clauses are numbered from 0, those of the log behind those of the formula.
use formula::{Clause, Point};
use frac128::Frac;
use sqlite_items::Items;

/// A step, with a `W` that shows a lemma.
#[derive(Drop)]
pub enum LogStep<W> {
    /// A clause that the theory shows.
    Lemma {
        clause: Clause,
        why: W,
    },
    /// A clause that follows by unit propagation from the clauses with these numbers, in their order.
    Learn {
        clause: Clause,
        hints: Items<u64>,
    },
    /// The next Boolean means `var <= k`, because `k < var < k + 1` at this point.
    Split {
        boolean: u64,
        var: u64,
        k: Frac,
        point: Point,
    },
}
