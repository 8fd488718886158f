//! The first tableau: each linear expression as the row of a variable of its own.
ghost use Rattle.std.specs.Prelude.{◌≡◌, ◌≤◌, ◌<◌, ◌+◌, ◌^◌, pos, All, ℕ, length, map, IfOk};
ghost use Rattle.rational.specs.Fraction.{whole};
ghost use Rattle.lin.specs.Linear.{AreBelow};
ghost use Rattle.tableau.specs.Table.{at};
ghost use Rattle.tableau.specs.inside.Start.{IsDense, IsBegun, IsMarked};

use crate::number::zero;
use frac128::Frac;
use lin::Lin;
use std::alloc::{AllocError, Global};

/// n zeros.
pub(crate) fn zeros(alloc: Global, n: usize) -> Result<Vec<Frac>, AllocError>
    ensures { IfOk result (λ v. (length v.items ≡ n) × ((j : ℕ) → at v.items j ≡ whole (pos 0))) }
{
    let mut v = Vec::new(alloc);
    for count in 0..n {
        v.push(zero())?;
    }
    Ok(v)
}

// The coefficient of each variable.
fn dense(alloc: Global, row: &Lin, n: usize) -> Result<Vec<Frac>, AllocError>
    requires { AreBelow n row.now.terms }
    ensures { IfOk result (λ v. IsDense n row.now.terms v.items) }
{
    let mut v = zeros(alloc, n)?;
    for i in 0..row.terms() {
        let (j, c) = row.term(i);
        v[j as usize] = c;
    }
    Ok(v)
}

/// The row of each variable: none for the first ones, the linear expressions behind them.
pub(crate) fn first_rows(
    alloc: Global,
    vars: usize,
    rows: &[Lin],
    n: usize,
) -> Result<Vec<Vec<Frac>>, AllocError>
    requires { All (λ l. AreBelow n l.terms) rows.now }
    ensures { IfOk result (λ a. IsBegun vars n rows.now (length rows.now) (map (λ v. v.items) a.items)) }
{
    let mut all = Vec::new(alloc);
    for done in 0..vars {
        all.push(Vec::new(alloc))?;
    }
    for row in rows {
        all.push(dense(alloc, row, n)?)?;
    }
    Ok(all)
}

/// Which variables are basic: those from `vars` on.
pub(crate) fn first_basic(alloc: Global, vars: usize, n: usize) -> Result<Vec<bool>, AllocError>
    ensures { IfOk result (λ v. IsMarked vars n v.items) }
{
    let mut v = Vec::new(alloc);
    for i in 0..n {
        v.push(i >= vars)?;
    }
    Ok(v)
}
