//! Formulas of n copies, as rows show them: for each numeric variable `c` where it is a count and `n` where it isn't; for each
//! Boolean its atom, as `1@0+2@1<=5/2`, or `t` where it is a truth variable; and the clauses, with Booleans from 0.
ghost use Rattle.std.specs.Prelude.{◌≤◌};
ghost use Rattle.pattern.specs.Pattern.{IsPattern};

use encode::{EncodeFail, encode};
use formula::{Atom, Clause, Formula};
use pattern::Pattern;
use row_files::{show_fraction, show_wide};
use std::alloc::{AllocError, Global};
use task_core::GroundTask;

fn add_variables(out: &mut String, formula: &Formula) -> Result<(), AllocError> {
    for v in 0..formula.vars() {
        out.push_str(if formula.is_count(v) { "c" } else { "n" })?;
    }
    Ok(())
}

fn add_atom(alloc: Global, out: &mut String, atom: &Atom) -> Result<(), AllocError> {
    for i in 0..atom.lin.terms() {
        let (variable, coefficient) = atom.lin.term(i);
        out.push_str(if i == 0 { "" } else { "+" })?;
        out.push_str(show_fraction(alloc, &coefficient)?.as_str())?;
        out.push_str(format!(in alloc; "@{variable}")?.as_str())?;
    }
    out.push_str(if atom.strict { "<" } else { "<=" })?;
    out.push_str(show_fraction(alloc, &atom.bound)?.as_str())
}

fn add_boolean(alloc: Global, out: &mut String, atom: Option<&Atom>) -> Result<(), AllocError> {
    out.push_str(" ")?;
    match atom {
        None => out.push_str("t"),
        Some(atom) => add_atom(alloc, out, atom),
    }
}

fn add_clause(alloc: Global, out: &mut String, clause: &Clause) -> Result<(), AllocError> {
    out.push_str(" (")?;
    for (i, l) in clause.lits().iter().enumerate() {
        let boolean = l.boolean;
        out.push_str(if i == 0 { "" } else { " " })?;
        out.push_str(if l.pos { "+" } else { "-" })?;
        out.push_str(format!(in alloc; "{boolean}")?.as_str())?;
    }
    out.push_str(")")
}

fn show_formula(alloc: Global, formula: &Formula) -> Result<String, AllocError> {
    let mut out = String::from_str(alloc, "variables ")?;
    add_variables(&mut out, formula)?;
    out.push_str("; booleans")?;
    for b in 0..formula.booleans() {
        add_boolean(alloc, &mut out, formula.atom(b))?;
    }
    out.push_str("; clauses")?;
    for clause in formula.clauses() {
        add_clause(alloc, &mut out, clause)?;
    }
    Ok(out)
}

/// How many numeric variables, Booleans and clauses.
fn show_size(alloc: Global, formula: &Formula) -> Result<String, AllocError> {
    let (variables, booleans) = (formula.vars(), formula.booleans());
    let clauses = formula.clauses().len();
    format!(in alloc; "variables {variables}; booleans {booleans}; clauses {clauses}")
}

fn show(alloc: Global, formula: &Formula, size_alone: bool) -> Result<String, AllocError> {
    if size_alone {
        show_size(alloc, formula)
    } else {
        show_formula(alloc, formula)
    }
}

/// The formula, or its size alone, or the operation that passes 128 bits with its row.
pub fn answer_formula(
    alloc: Global,
    task: &GroundTask,
    pattern: &Pattern,
    n: u32,
    size_alone: bool,
) -> Result<String, AllocError>
    requires pattern { IsPattern task.now pattern.now }
    requires copies { n ≤ 1000 }
{
    match encode(alloc, task, pattern, n) {
        Ok(formula) => show(alloc, &formula, size_alone),
        Err(EncodeFail::AtomWide(wide)) => {
            let row = wide.row;
            let operation = show_wide(alloc, &wide.wide)?;
            format!(in alloc; "wide {row} {operation}")
        }
        Err(EncodeFail::Memory) => Err(AllocError),
    }
}
