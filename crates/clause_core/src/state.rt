//! The core.
ghost use Rattle.std.specs.Prelude.{◌≡◌, [], length, IfOk};
ghost use Rattle.formula.specs.Contents.{IsFormula};
ghost use Rattle.theory_law.specs.Seen.{at_start};

use crate::agenda::{Agenda, agenda_of};
use clause_trail::Trail;
use formula::Formula;
use std::alloc::{AllocError, Global};
use std::marker::Model;
use theory_law::Theory;

/// A formula with the clauses of its log, a theory of its atoms, and the literals that are true.
#[derive(Drop)]
pub struct Core<T: Theory> {
    pub(crate) alloc: Global,
    pub(crate) formula: Formula,
    pub(crate) theory: T,
    pub(crate) trail: Trail,
    /// How many entries of the trail the theory was told.
    pub(crate) told: usize,
    pub(crate) agenda: Agenda,
}

impl<T: Theory> Model for Core<T> {
    ghost use Rattle.clause_core.specs.Cored.{Cored, cored_code};

    ghost Value = { Cored T };

    ghost coded = { cored_code T.code };

    ghost use Rattle.clause_core.specs.Solving.{IsCore};
    ghost use Rattle.clause_trail.specs.Decisions.{lits_of};

    ghost view = { λ c. record { formula = c.formula; theory = c.theory; trail = lits_of c.trail.entries } };

    ghost invariant = { λ c. IsCore c.formula (T.seen c.theory) c.told c.trail };
}

impl<T: Theory> Core<T> {
    ghost use Rattle.clause_core.specs.Cored.{Cored};

    /// A core over a formula and a theory that was started on it, with nothing assigned yet.
    pub fn new(alloc: Global, formula: Formula, theory: T) -> Result<Core<T>, AllocError>
        requires { T.seen theory ≡ at_start formula (T.seen theory).pivots }
        ensures { IfOk result (λ c. c ≡ record { formula = formula; theory = theory; trail = [] }) }
    {
        let trail = trail_of(alloc, &formula)?;
        let agenda = agenda_of(alloc, &formula)?;
        Ok(Core {
            alloc,
            formula,
            theory,
            trail,
            told: 0,
            agenda,
        })
    }
}

/// An empty trail for the formula's Booleans.
fn trail_of(alloc: Global, formula: &Formula) -> Result<Trail, AllocError>
    ensures trail { IfOk result (λ t. (t.entries ≡ []) × (t.booleans ≡ length formula.now.atoms)) }
    ensures formula { IsFormula formula.now }
{
    let _clauses = formula.clauses();
    Trail::new(alloc, formula.booleans() as usize)
}
