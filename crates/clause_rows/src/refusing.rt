//! A theory that refuses, for rows: it has no atoms, and one of its checks doesn't answer.
ghost use Rattle.std.specs.Prelude.{◌≡◌, [], false, None};

use formula::{Formula, Lit};
use frac128::{Frac, Op, Wide};
use sqlite_items::Items;
use std::alloc::{AllocError, Global};
use theory_law::{Coefs, NoTheory, Site, StartFail, Theory, TheoryFail, Trace, Verdict};

/// The theory without atoms, but that check `pivots / 2`, counted from 0, refuses: because its pivots are spent, or where
/// `pivots` is odd because an operation passes.
#[derive(Drop)]
pub struct Refusing {
    alloc: Global,
    inner: NoTheory,
    left: u64,
    is_wide: bool,
}

/// A trace without literals.
fn trace(alloc: Global, site: Site, wide: Option<Wide>) -> Trace
    ensures lits { result.lits ≡ [] }
    ensures site { result.site ≡ site }
    ensures wide { result.wide ≡ wide }
    ensures lemma { result.lemma ≡ None }
{
    Trace {
        basis: Items::new(alloc),
        lits: Items::new(alloc),
        pivots: Items::new(alloc),
        site,
        wide,
        lemma: None,
    }
}

impl Theory for Refusing {
    type Why = Coefs;

    ghost seen = { λ t. ⟦<NoTheory as Theory>⟧.seen t.inner };

    ghost cut = { λ t. ⟦<NoTheory as Theory>⟧.cut t.inner };

    ghost fixed = { λ t. ⟦<NoTheory as Theory>⟧.fixed t.inner };

    ghost takes = { λ _ _. false };

    ghost cuts = { false };

    ghost shown = { λ _ _ _ _. ⊥ };

    ghost stuck = { λ _ _ _ _. Unit {0} };

    fn start(alloc: Global, formula: &Formula, pivots: u64) -> Result<Self, StartFail> {
        match NoTheory::start(alloc, formula, pivots) {
            Ok(inner) => Ok(Refusing {
                alloc,
                inner,
                left: pivots / 2,
                is_wide: pivots % 2 == 1,
            }),
            Err(fail) => Err(fail),
        }
    }

    fn learn_atom(&mut self, var: u64, k: Frac) -> Result<(), AllocError> {
        self.inner.learn_atom(var, k)
    }

    fn put(&mut self, lit: Lit) {
        self.inner.put(lit);
    }

    fn mark(&mut self) {
        self.inner.mark();
    }

    fn back(&mut self) {
        self.inner.back();
    }

    fn check(&mut self, full: bool) -> Result<Verdict<Coefs>, TheoryFail> {
        if self.left == 0 {
            if self.is_wide {
                let zero = Frac::ratio(0, 1);
                let wide = Wide {
                    op: Op::Add,
                    x: zero,
                    y: zero,
                };
                return Err(TheoryFail::Wide(trace(self.alloc, Site::Point, Some(wide))));
            }
            return Err(TheoryFail::Pivots(trace(self.alloc, Site::Pivots, None)));
        }
        self.left -= 1;
        match self.inner.check(full) {
            Ok(verdict) => Ok(verdict),
            Err(_fail) => Err(TheoryFail::Memory),
        }
    }

    fn point(&self, var: u64) -> Frac {
        self.inner.point(var)
    }

    ghost shown_holds = { λ _ _ _ _ h. absurd h };
}
