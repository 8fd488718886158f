//! Bounds of counts as a theory. `judge` has its answers: it guesses a point, looks for a clash, tests the point, and cuts where
//! a count isn't whole.
ghost use Rattle.std.specs.Prelude.{◌≡◌, ◌≤◌, ◌<◌, Bool, true, None, Some, Ok, List, length, IfOk, IfSome, MatchResult};
ghost use Rattle.std.specs.declared.option.Option.{Option};
ghost use Rattle.std.specs.Option.{ForSome};
ghost use Rattle.rational.specs.Fraction.{Fraction};
ghost use Rattle.theory_law.specs.Splits.{CanSplit};
ghost use Rattle.theory_law.specs.Verdicts.{VerdictHolds, FailHolds, IsStuckAt, MeetsAsserted, last_cut};
ghost use Rattle.bound_theory.specs.Bounds.{is_taken, IsBoundLemma, ExcludesSome};
ghost use Rattle.bound_theory.specs.Stuck.{IsStuck};

use crate::clashing::{Excluded, first_clash, ones, pair};
use crate::guessing::guess;
use crate::starting::{copy, zeros};
use crate::testing::{all_hold, cut_below, first_fraction};
use asserted::Asserted;
use formula::{Formula, Lit};
use frac128::Frac;
use sqlite_items::Items;
use std::alloc::{AllocError, Global};
use theory_law::{Coefs, Site, StartFail, Theory, TheoryFail, Trace, Verdict};

/// What is asserted of the atoms, with the last point and the last cut.
#[derive(Drop)]
pub struct Bounds {
    alloc: Global,
    /// The variables and the Booleans, without clauses.
    formula: Formula,
    pivots: u64,
    asserted: Asserted,
    values: Items<Frac>,
    cut: Option<(u64, Frac)>,
    ghost roomy: { length formula.atoms ≤ asserted.booleans },
    ghost sized: { length values ≡ length formula.counts },
    ghost splits: { ForSome cut (λ c. CanSplit formula.counts c.0 c.1) },
}

/// A verdict, and the point that it speaks of.
#[derive(Drop)]
struct Judged {
    verdict: Verdict<Coefs>,
    values: Items<Frac>,
}

/// The theory gives up.
fn gives_up(alloc: Global) -> TheoryFail
    ensures { FailHolds IsStuck result }
{
    TheoryFail::Pivots(Trace {
        basis: Items::new(alloc),
        lits: Items::new(alloc),
        pivots: Items::new(alloc),
        site: Site::Pivots,
        wide: None,
        lemma: None,
    })
}

/// The cut of a verdict.
fn cut_of(verdict: &Verdict<Coefs>) -> Option<(u64, Frac)>
    ensures { result ≡ last_cut (Ok verdict.now) }
{
    match verdict {
        Verdict::Cut { var, k } => Some((*var, *k)),
        Verdict::Fits => None,
        Verdict::Clash {
            clause: _clause,
            why: _why,
        } => None,
    }
}

impl Bounds {
    ghost use Rattle.bound_theory.specs.Judging.{seen_of, JudgedHolds};

    /// The clause of two bounds that exclude each other.
    fn clash(&self, found: Excluded) -> Result<Verdict<Coefs>, AllocError>
        requires { ExcludesSome self.now.formula.counts self.now.formula.atoms self.now.asserted.events found }
        ensures { IfOk result (λ v. (full : Bool) (point : Option (List Fraction)) → VerdictHolds IsBoundLemma true (seen_of self.now) full point v) }
    {
        let clause = pair(self.alloc, found.upper.opposite(), found.lower.opposite())?;
        let why = ones(self.alloc)?;
        Ok(Verdict::Clash { clause, why })
    }

    /// What a point that meets the asserted readings says, unless its cut can't be made.
    fn settle(&self, values: &[Frac], full: bool) -> Option<Verdict<Coefs>>
        requires { MeetsAsserted (seen_of self.now) values.now }
        ensures { IfSome result (VerdictHolds IsBoundLemma true (seen_of self.now) full (Some values.now)) }
    {
        if !full {
            return Some(Verdict::Fits);
        }
        let Some(var) = first_fraction(&self.formula, values) else {
            return Some(Verdict::Fits);
        };
        let k = cut_below(&values[var as usize])?;
        Some(Verdict::Cut { var, k })
    }

    fn judge(&self, full: bool) -> Result<Judged, TheoryFail>
        ensures { MatchResult result (JudgedHolds self.now full) (FailHolds IsStuck) }
    {
        let events = self.asserted.events();
        let Some(values) = guess(self.alloc, &self.formula, events, full)? else {
            return Err(gives_up(self.alloc));
        };
        if let Some(found) = first_clash(&self.formula, events) {
            let verdict = self.clash(found)?;
            return Ok(Judged { verdict, values });
        }
        if !all_hold(&self.formula, events, values.as_slice()) {
            return Err(gives_up(self.alloc));
        }
        match self.settle(values.as_slice(), full) {
            Some(verdict) => Ok(Judged { verdict, values }),
            None => Err(gives_up(self.alloc)),
        }
    }
}

impl Theory for Bounds {
    type Why = Coefs;

    ghost use Rattle.bound_theory.specs.Judging.{seen_of};
    ghost use Rattle.bound_theory.specs.LemmaLaws.{lemma_holds};

    ghost seen = { seen_of };

    ghost cut = { λ t. t.cut };

    ghost fixed = { λ t. Some t.values };

    ghost takes = { is_taken };

    ghost cuts = { true };

    ghost shown = { IsBoundLemma };

    ghost stuck = { λ _ _ _ _. Unit {0} };

    fn start(alloc: Global, formula: &Formula, pivots: u64) -> Result<Self, StartFail> {
        let booleans = formula.booleans();
        let asserted = Asserted::new(alloc, booleans)?;
        let values = zeros(alloc, formula)?;
        let formula = copy(alloc, formula)?;
        Ok(Bounds {
            alloc,
            formula,
            pivots,
            asserted,
            values,
            cut: None,
        })
    }

    fn learn_atom(&mut self, var: u64, k: Frac) -> Result<(), AllocError> {
        let Some(cut) = self.cut else {
            return Ok(());
        };
        if cut.0 != var || cut.1 != k {
            return Ok(());
        }
        self.asserted.add_boolean()?;
        match self.formula.add_split(cut.0, cut.1) {
            Ok(_boolean) => {
                self.cut = None;
                Ok(())
            }
            Err(fail) => Err(fail),
        }
    }

    fn put(&mut self, lit: Lit) {
        self.cut = None;
        self.asserted.put(lit);
    }

    fn mark(&mut self) {
        self.cut = None;
        self.asserted.mark();
    }

    fn back(&mut self) {
        self.cut = None;
        self.asserted.back();
    }

    fn check(&mut self, full: bool) -> Result<Verdict<Coefs>, TheoryFail> {
        self.cut = None;
        match self.judge(full) {
            Ok(Judged { verdict, values }) => {
                self.cut = cut_of(&verdict);
                self.values = values;
                Ok(verdict)
            }
            Err(fail) => Err(fail),
        }
    }

    fn point(&self, var: u64) -> Frac {
        self.values.as_slice()[var as usize]
    }

    ghost shown_holds = { lemma_holds };
}
