//! Where a check of the simplex got stuck: the evidence of a refusal.
use formula::{Clause, Lit};
use frac128::{Frac, Wide};
use sqlite_items::Items;

/// The coefficients of a Farkas lemma, in the order of its clause.
#[derive(Debug, Drop)]
pub struct Coefs {
    pub list: Items<Frac>,
}

/// The variable that leaves the basis, and the one that enters it.
#[derive(Clone, Copy, Debug, PartialEq, Eq)]
pub struct Swap {
    pub leave: u64,
    pub enter: u64,
}

/// What was being computed: nothing but pivots, a cell of a pivot, a basic variable's value, the point, or a lemma's sum.
#[derive(Clone, Copy, Debug, PartialEq, Eq)]
pub enum Site {
    Pivots,
    Pivot,
    Value,
    Point,
    Farkas,
}

/// A clause that no point with whole counts makes false, with its coefficients.
#[derive(Debug, Drop)]
pub struct Lemma {
    pub clause: Clause,
    pub coefs: Coefs,
}

/// The basis at the start of a check, the asserted literals, the pivots, and where it stopped. There is an operation that
/// passes 128 bits unless it stopped at the number of pivots, and a lemma exactly where its sum passes.
#[derive(Debug, Drop)]
pub struct Trace {
    pub basis: Items<u64>,
    pub lits: Items<Lit>,
    pub pivots: Items<Swap>,
    pub site: Site,
    pub wide: Option<Wide>,
    pub lemma: Option<Lemma>,
}
