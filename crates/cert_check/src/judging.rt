//! The judge. Begin with `Judge::step`: the tests of a step, and then the formula has what it adds.
ghost use Rattle.std.specs.Prelude.{◌≡◌, ◌↔◌, [], true, length, slice_get, Some, IsTrue, IfOk, OnOk, OnErr, pos};
ghost use Rattle.std.specs.List.{Contains};
ghost use Rattle.formula.specs.Contents.{is_clause, with_clause, with_boolean};
ghost use Rattle.theory_law.specs.Log.{HasEmpty, after};
ghost use Rattle.theory_law.specs.Splits.{CanSplit, at_most};
ghost use Rattle.clause_index.specs.Places.{HasRoom};
ghost use Rattle.cert_check.specs.Judged.{Judged};
ghost use Rattle.cert_check.specs.inside.Indexed.{IsIndexed};

use crate::bad::Bad;
use crate::testing::{test_learn, test_lemma, test_split};
use clause_index::ClauseIndex;
use clause_units::Truths;
use formula::{Clause, Formula, Point};
use frac128::Frac;
use sqlite_items::Items;
use std::alloc::{AllocError, Global};
use std::marker::Model;
use theory_law::{Coefs, LogStep};

/// Judges a log step by step, with the formula so far, which contracts see.
#[derive(Drop)]
pub struct Judge {
    formula: Formula,
    truths: Truths,
    index: ClauseIndex,
    alloc: Global,
}

impl Model for Judge {
    ghost use Rattle.formula.specs.Contents.{Contents};
    ghost use Rattle.cert_check.specs.inside.Ready.{IsKept};

    ghost Value = { Contents };

    ghost view = { λ j. j.formula };

    ghost invariant = { λ j. IsKept j.formula j.truths j.index };
}

impl Judge {
    /// No step was taken yet.
    pub fn new(alloc: Global, formula: Formula) -> Result<Judge, AllocError>
        ensures { IfOk result (λ j. j ≡ formula) }
    {
        let truths = Truths::new(alloc, formula.booleans() as usize)?;
        let index = index_of(alloc, &formula)?;
        Ok(Judge {
            formula,
            truths,
            index,
            alloc,
        })
    }

    /// Whether the empty clause stands.
    pub fn is_empty(&self) -> bool
        ensures { IsTrue result ↔ HasEmpty self.now }
    {
        let _ = &self.formula;
        self.index.has_empty()
    }

    /// Takes a step that passes the tests. Any other leaves the judge as it was.
    pub fn step(&mut self, s: &LogStep<Coefs>) -> Result<(), Bad>
        ensures judged { Judged self.old s.now result }
        ensures taken { OnOk result (self.new ≡ after self.old s.now) }
        ensures same { OnErr result (self.new ≡ self.old) }
    {
        match s {
            LogStep::Lemma { clause, why } => self.lemma(clause, why),
            LogStep::Learn { clause, hints } => self.learn(clause, hints),
            LogStep::Split {
                boolean,
                var,
                k,
                point,
            } => self.split(*boolean, *var, k, point),
        }
    }

    fn lemma(&mut self, clause: &Clause, why: &Coefs) -> Result<(), Bad>
        ensures judged { Judged self.old (LogStep.Lemma clause.now why.now) result }
        ensures taken { OnOk result (self.new ≡ with_clause clause.now self.old) }
        ensures same { OnErr result (self.new ≡ self.old) }
    {
        test_lemma(&self.formula, &mut self.truths, &self.index, clause, why)?;
        self.add_clause(clause)?;
        Ok(())
    }

    fn learn(&mut self, clause: &Clause, hints: &Items<u64>) -> Result<(), Bad>
        ensures judged { Judged self.old (LogStep.Learn clause.now hints.now) result }
        ensures taken { OnOk result (self.new ≡ with_clause clause.now self.old) }
        ensures same { OnErr result (self.new ≡ self.old) }
    {
        test_learn(&self.formula, &mut self.truths, &self.index, clause, hints)?;
        self.add_clause(clause)?;
        Ok(())
    }

    fn split(&mut self, boolean: u64, var: u64, k: &Frac, point: &Point) -> Result<(), Bad>
        ensures judged { Judged self.old (LogStep.Split boolean var k.now point.now) result }
        ensures taken { OnOk result (self.new ≡ with_boolean (Some (at_most var k.now)) self.old) }
        ensures same { OnErr result (self.new ≡ self.old) }
    {
        test_split(&self.formula, boolean, var, k, point)?;
        self.add_split(var, *k)?;
        Ok(())
    }

    // One more clause.
    fn add_clause(&mut self, clause: &Clause) -> Result<(), AllocError>
        requires { is_clause (length self.old.atoms) clause.now ≡ true }
        ensures added { OnOk result (self.new ≡ with_clause clause.now self.old) }
        ensures same { OnErr result (self.new ≡ self.old) }
    {
        let copy = clause.lits().to_vec(self.alloc)?;
        let number = self.formula.clauses().len();
        self.index.add(number, clause.lits())?;
        self.formula.add_clause(Clause::new(copy))?;
        if clause.lits().is_empty() {
            self.index.add_empty();
            return Ok(());
        }
        Ok(())
    }

    // One more Boolean, of the atom `var <= k`.
    fn add_split(&mut self, var: u64, k: Frac) -> Result<(), AllocError>
        requires { CanSplit self.old.counts var k }
        ensures added { OnOk result (self.new ≡ with_boolean (Some (at_most var k)) self.old) }
        ensures same { OnErr result (self.new ≡ self.old) }
    {
        self.truths.add_boolean()?;
        self.index.add_boolean()?;
        self.formula.add_split(var, k)?;
        Ok(())
    }
}

// Where each clause of the formula is to be found.
fn index_of(alloc: Global, formula: &Formula) -> Result<ClauseIndex, AllocError>
    ensures room { IfOk result (λ i. HasRoom i (length formula.now.atoms)) }
    ensures indexed { IfOk result (λ i. IsIndexed formula.now.clauses i) }
{
    let mut index = ClauseIndex::new(alloc, formula.booleans() as usize)?;
    for (number, clause) in formula.clauses().iter().enumerate() {
        index.add(number, clause.lits())?;
    }
    if has_empty(formula.clauses()) {
        index.add_empty();
        return Ok(index);
    }
    Ok(index)
}

fn has_empty(clauses: &[Clause]) -> bool
    ensures { IsTrue result ↔ Contains clauses.now [] }
{
    clauses.iter().any(|c| c.lits().is_empty())
}
