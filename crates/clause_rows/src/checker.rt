//! A plain judge of logs: it tests each step with the clauses and the bounds so far, and knows nothing of the core. A list of
//! truths, one for each Boolean, is all its state in a step.
ghost use Rattle.std.specs.Prelude.{◌≡◌};

use crate::readings::{Bound, bounds_of, exclude, hold_at, is_between};
use formula::{Formula, Lit, Point};
use frac128::Frac;
use std::alloc::{AllocError, Global};
use theory_law::{LogFail, LogSink, LogStep};

/// The clauses and the Booleans so far, each with its bound if it is one, and what was wrong with the steps. It fails in place
/// of taking step `fails_at`, counted from 0.
#[derive(Drop)]
pub struct Checker {
    alloc: Global,
    clauses: Vec<Vec<Lit>>,
    bounds: Vec<Option<Bound>>,
    pub steps: u64,
    pub lemmas: u64,
    pub splits: u64,
    pub fails_at: u64,
    pub faults: u64,
    /// Clauses that don't follow by units or from their bounds, and splits that don't make the next Boolean.
    pub unsound: u64,
    /// Clauses that contain an earlier one, and splits whose point isn't one, or lies at a whole number.
    pub needless: u64,
}

impl Checker {
    pub fn new(alloc: Global, formula: &Formula, fails_at: u64) -> Result<Checker, AllocError> {
        let mut clauses = Vec::new(alloc);
        for clause in formula.clauses() {
            clauses.push(Vec::from_slice(alloc, clause.lits())?)?;
        }
        Ok(Checker {
            alloc,
            clauses,
            bounds: bounds_of(alloc, formula)?,
            steps: 0,
            lemmas: 0,
            splits: 0,
            fails_at,
            faults: 0,
            unsound: 0,
            needless: 0,
        })
    }

    /// Whether the empty clause stands.
    pub fn is_empty(&self) -> bool {
        for clause in self.clauses.as_slice() {
            if clause.is_empty() {
                return true;
            }
        }
        false
    }

    /// Whether the truths make a literal of each clause true, and the bounds hold at the values.
    pub fn is_met(&self, point: &Point) -> bool {
        let truths = point.truth.as_slice();
        for clause in self.clauses.as_slice() {
            if !has_true(truths, clause.as_slice()) {
                return false;
            }
        }
        hold_at(self.bounds.as_slice(), truths, point.values.as_slice())
    }

    /// Whether two of the clause's literals can't both be false.
    fn is_lemma(&self, clause: &[Lit]) -> bool {
        for upper in clause {
            for lower in clause {
                if exclude(self.bounds.as_slice(), *upper, *lower) {
                    return true;
                }
            }
        }
        false
    }

    /// Takes a split: whether it makes the next Boolean, for a whole number, and whether it is due at its point.
    fn split(&mut self, boolean: u64, var: u64, k: &Frac, point: &Point) -> Result<(), AllocError>
        ensures { self.new.faults ≡ self.old.faults }
    {
        self.splits = self.splits.saturating_add(1);
        if boolean != self.bounds.len() as u64 || !k.is_whole() {
            self.unsound = self.unsound.saturating_add(1);
        }
        if !self.is_met(point) || !is_between(point.values.as_slice(), var, k) {
            self.needless = self.needless.saturating_add(1);
        }
        let most = *k;
        self.bounds.push(Some(Bound { var, most }))?;
        Ok(())
    }

    /// How many clauses the clause contains.
    fn parts(&self, clause: &[Lit]) -> u64 {
        let mut parts = 0u64;
        for earlier in self.clauses.as_slice() {
            if is_part(earlier.as_slice(), clause) {
                parts = parts.saturating_add(1);
            }
        }
        parts
    }

    fn add(&mut self, clause: &[Lit]) -> Result<(), AllocError>
        ensures { self.new.faults ≡ self.old.faults }
    {
        self.needless = self.needless.saturating_add(self.parts(clause));
        let copy = Vec::from_slice(self.alloc, clause)?;
        self.clauses.push(copy)?;
        Ok(())
    }

    /// Whether with the clause's literals false each hint but the last makes one literal true, and the last is then false.
    fn follows(&self, clause: &[Lit], hints: &[u64]) -> Result<bool, AllocError> {
        let mut truths = vec![in self.alloc; None; self.bounds.len()]?;
        for lit in clause {
            set(truths.as_mut_slice(), lit.boolean, !lit.pos);
        }
        let mut left = hints.len();
        for hint in hints {
            left = left.saturating_sub(1);
            let number = *hint as usize;
            if number >= self.clauses.len() {
                return Ok(false);
            }
            let units = open_lits(truths.as_slice(), self.clauses[number].as_slice());
            if left == 0 {
                return Ok(units.count == 0);
            }
            let Some(lit) = units.last else {
                return Ok(false);
            };
            if units.count != 1 || value(truths.as_slice(), lit).is_some() {
                return Ok(false);
            }
            set(truths.as_mut_slice(), lit.boolean, lit.pos);
        }
        Ok(false)
    }
}

/// The literals of a clause that aren't false.
#[derive(Drop)]
struct OpenLits {
    count: u64,
    last: Option<Lit>,
}

fn value(truths: &[Option<bool>], lit: Lit) -> Option<bool> {
    let b = lit.boolean as usize;
    if b < truths.len() {
        if let Some(truth) = truths[b] {
            return Some(truth == lit.pos);
        }
    }
    None
}

fn open_lits(truths: &[Option<bool>], clause: &[Lit]) -> OpenLits {
    let mut count = 0u64;
    let mut last = None;
    for lit in clause {
        if value(truths, *lit) != Some(false) {
            count = count.saturating_add(1);
            last = Some(*lit);
        }
    }
    OpenLits { count, last }
}

fn set(truths: &mut [Option<bool>], boolean: u64, truth: bool) {
    let b = boolean as usize;
    if b < truths.len() {
        truths[b] = Some(truth);
    }
}

fn has(clause: &[Lit], lit: Lit) -> bool {
    for other in clause {
        if *other == lit {
            return true;
        }
    }
    false
}

fn is_part(part: &[Lit], clause: &[Lit]) -> bool {
    for lit in part {
        if !has(clause, *lit) {
            return false;
        }
    }
    true
}

fn has_true(truths: &[bool], clause: &[Lit]) -> bool {
    for lit in clause {
        let b = lit.boolean as usize;
        if b < truths.len() && truths[b] == lit.pos {
            return true;
        }
    }
    false
}

impl<W> LogSink<W> for Checker {
    ghost faults = { λ c. c.faults };

    ghost stands_for = { λ _ _. Unit {0} };

    ghost stopped_in = { λ _ _ _. Unit {0} };

    fn step(&mut self, s: &LogStep<W>) -> Result<(), LogFail> {
        if self.steps == self.fails_at {
            self.faults = self.faults.saturating_add(1);
            return Err(LogFail::Failed);
        }
        self.steps = self.steps.saturating_add(1);
        match s {
            LogStep::Lemma { clause, why: _why } => {
                self.lemmas = self.lemmas.saturating_add(1);
                if !self.is_lemma(clause.lits()) {
                    self.unsound = self.unsound.saturating_add(1);
                }
                self.add(clause.lits())?;
            }
            LogStep::Learn { clause, hints } => {
                if !self.follows(clause.lits(), hints.as_slice())? {
                    self.unsound = self.unsound.saturating_add(1);
                }
                self.add(clause.lits())?;
            }
            LogStep::Split {
                boolean,
                var,
                k,
                point,
            } => {
                self.split(*boolean, *var, k, point)?;
            }
        }
        Ok(())
    }
}
