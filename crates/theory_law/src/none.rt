//! The theory of formulas without atoms. There is nothing to check.
ghost use Rattle.std.specs.Prelude.{◌≡◌, ℕ, Bool, false, Some, None, IfOk, length, replicate};
ghost use Rattle.rational.specs.Fraction.{whole};
ghost use lib.IntN.{pos};

use crate::theory::Theory;
use crate::trace::Coefs;
use crate::verdict::{StartFail, TheoryFail, Verdict};
use formula::{Formula, Lit};
use frac128::Frac;
use sqlite_items::Items;
use std::alloc::{AllocError, Global};

#[derive(Debug, Drop)]
pub struct NoTheory {
    counts: Items<bool>,
    booleans: u64,
    pivots: u64,
    marks: u64,
}

/// For each variable whether it is a count.
fn counts_of(alloc: Global, formula: &Formula) -> Result<Items<bool>, AllocError>
    ensures { IfOk result (λ counts. counts ≡ formula.now.counts) }
{
    let mut counts = Items::new(alloc);
    for v in 0..formula.vars() {
        counts.push(formula.is_count(v))?;
    }
    Ok(counts)
}

impl Theory for NoTheory {
    type Why = Coefs;

    ghost seen = { λ t. record { counts = t.counts; atoms = replicate t.booleans None; pivots = t.pivots; asserted = replicate t.marks None } };

    ghost cut = { λ _. None };

    ghost fixed = { λ t. Some (replicate (length t.counts) (whole (pos 0))) };

    ghost takes = { λ _ _. false };

    ghost cuts = { false };

    ghost shown = { λ _ _ _ _. ⊥ };

    ghost stuck = { λ _ _ _ _. ⊥ };

    fn start(alloc: Global, formula: &Formula, pivots: u64) -> Result<Self, StartFail> {
        let booleans = formula.booleans();
        for b in 0..booleans {
            match formula.atom(b) {
                Some(_atom) => return Err(StartFail::NotMine(b)),
                None => {}
            }
        }
        Ok(NoTheory {
            counts: counts_of(alloc, formula)?,
            booleans,
            pivots,
            marks: 0,
        })
    }

    fn learn_atom(&mut self, var: u64, k: Frac) -> Result<(), AllocError> {
        Ok(())
    }

    fn put(&mut self, lit: Lit) {}

    fn mark(&mut self) {
        let booleans = self.booleans;
        if self.marks < booleans {
            self.marks += 1;
        }
    }

    fn back(&mut self) {
        self.marks -= 1;
    }

    fn check(&mut self, full: bool) -> Result<Verdict<Coefs>, TheoryFail> {
        Ok(Verdict::Fits)
    }

    fn point(&self, var: u64) -> Frac {
        Frac::ratio(0, 1)
    }

    ghost shown_holds = { λ _ _ _ _ h. absurd h };
}
