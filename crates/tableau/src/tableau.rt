//! A tableau: each basic variable as a sum over the non-basic ones. Begin with `pivot`.
ghost use Rattle.std.specs.Prelude.{◌≡◌, ◌≢◌, ◌<◌, ◌+◌, ◌^◌, ◌↔◌, pos, All, IsTrue, IfOk, false, length};
ghost use Rattle.rational.specs.Fraction.{whole};
ghost use Rattle.lin.specs.Linear.{AreBelow};
ghost use Rattle.tableau.specs.Table.{width, cell, is_basic, basis, IsTidy, IsFirstTableau};
ghost use Rattle.tableau.specs.Pivot.{PivotAnswers};

use crate::basis::{list_again, listed};
use crate::exchange::exchange;
use crate::filling::fill;
use crate::row::solve;
use crate::start::{first_basic, first_rows, zeros};
use frac128::{Frac, Wide};
use lin::Lin;
use std::alloc::{AllocError, Global};
use std::marker::Model;

/// A row of cells for each basic variable, over all variables, with room for the rows after the next pivot, so that a pivot
/// takes no memory and one that is refused changes nothing.
#[derive(Debug, Drop)]
pub struct Tableau {
    // By variable; that of a non-basic one is empty.
    rows: Vec<Vec<Frac>>,
    basic: Vec<bool>,
    // The basic variables in rising order.
    basis: Vec<u64>,
    next: Vec<Vec<Frac>>,
    solved: Vec<Frac>,
}

impl Model for Tableau {
    ghost use Rattle.tableau.specs.Table.{Table};

    ghost Value = { Table };

    ghost use Rattle.tableau.specs.Fields.{table_of, IsShaped};

    ghost view = { table_of };

    ghost invariant = { IsShaped };
}

impl Tableau {
    /// The variables below `vars`, and one for each of the expressions over them, with its value but for the constant. The
    /// variables of the expressions are numbered from `vars` on, and are the basis.
    pub fn new(alloc: Global, vars: u64, rows: &[Lin]) -> Result<Tableau, AllocError>
        requires room { vars + length rows.now < 2 ^ 64 }
        requires below { All (λ l. AreBelow vars l.terms) rows.now }
        ensures { IfOk result (λ t. IsFirstTableau vars rows.now t) }
    {
        let vars = vars as usize;
        let n = vars + rows.len();
        let basic = first_basic(alloc, vars, n)?;
        let basis = listed(alloc, &basic)?;
        let first = first_rows(alloc, vars, rows, n)?;
        let next = first_rows(alloc, vars, rows, n)?;
        let solved = zeros(alloc, n)?;
        Ok(Tableau {
            rows: first,
            basic,
            basis,
            next,
            solved,
        })
    }

    /// How many variables there are.
    pub fn width(&self) -> u64
        ensures value { result ≡ width self.now }
        ensures tidy { IsTidy self.now }
    {
        self.basic.len() as u64
    }

    /// Whether the variable is basic.
    pub fn is_basic(&self, v: u64) -> bool
        requires { v < width self.now }
        ensures { result ≡ is_basic self.now v }
    {
        self.basic[v as usize]
    }

    /// The basic variables in rising order.
    pub fn basis(&self) -> &[u64]
        ensures { result.now ≡ basis self.now }
    {
        &self.basis
    }

    /// The factor of j in the row of the basic variable r.
    pub fn cell(&self, r: u64, j: u64) -> Frac
        requires row { r < width self.now }
        requires basic { IsTrue (is_basic self.now r) }
        requires column { j < width self.now }
        ensures { result ≡ cell self.now r j }
    {
        self.rows[r as usize][j as usize]
    }

    /// The row of r is solved for e and put into the others. Takes no memory.
    pub fn pivot(&mut self, r: u64, e: u64) -> Result<(), Wide>
        requires leaving { r < width self.old }
        requires entering { e < width self.old }
        requires basic { IsTrue (is_basic self.old r) }
        requires other { is_basic self.old e ≡ false }
        requires nonzero { cell self.old r e ≢ whole (pos 0) }
        ensures { PivotAnswers self.old r e self.new result }
    {
        let (r, e) = (r as usize, e as usize);
        solve(&self.rows[r], r, e, &mut self.solved)?;
        fill(&self.rows, &self.solved, r, e, &mut self.next)?;
        exchange(&mut self.rows, &mut self.next, &mut self.solved, r, e);
        self.basic[r] = false;
        self.basic[e] = true;
        list_again(&self.basic, &mut self.basis);
        Ok(())
    }
}
