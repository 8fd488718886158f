//! Formulas from text: clauses with `;` between them, literals with `,` between them, each the number of its Boolean, behind a
//! `~` where it is negated. The Booleans of a clause rise.
ghost use Rattle.std.specs.Prelude.{◌≡◌, IfOk, IfSome, true};
ghost use Rattle.formula.specs.Contents.{is_clause, is_clause_from};

use formula::{Clause, Formula, Lit};
use std::alloc::{AllocError, Global};

/// Whether the Booleans rise from `least` on, and are below `booleans`.
fn is_rising(least: u64, booleans: u64, lits: &[Lit]) -> bool
    ensures { result ≡ is_clause_from least booleans lits.now }
{
    match lits {
        [] => true,
        [first, rest @ ..] => {
            least <= first.boolean
                && first.boolean < booleans
                && is_rising(first.boolean + 1, booleans, rest)
        }
    }
}

fn read_lit(text: &str) -> Option<Lit> {
    let (digits, pos) = match text.strip_prefix('~') {
        Some(digits) => (digits, false),
        None => (text, true),
    };
    let boolean = digits.parse::<u64>().ok()?;
    Some(Lit { boolean, pos })
}

fn read_lits(alloc: Global, text: &str) -> Result<Option<Vec<Lit>>, AllocError> {
    let mut lits = Vec::new(alloc);
    for word in text.split(',') {
        let Some(lit) = read_lit(word) else {
            return Ok(None);
        };
        lits.push(lit)?;
    }
    Ok(Some(lits))
}

fn read_clause(alloc: Global, booleans: u64, text: &str) -> Result<Option<Clause>, AllocError>
    ensures { IfOk result (λ o. IfSome o (λ c. is_clause booleans c ≡ true)) }
{
    let Some(lits) = read_lits(alloc, text)? else {
        return Ok(None);
    };
    if !is_rising(0, booleans, lits.as_slice()) {
        return Ok(None);
    }
    Ok(Some(Clause::new(lits)))
}

/// The formula with so many truth variables and without clauses.
pub fn truths(alloc: Global, booleans: u64) -> Result<Formula, AllocError> {
    let mut formula = Formula::new(alloc);
    for _b in 0..booleans {
        formula.add_truth()?;
    }
    Ok(formula)
}

/// The formula with these clauses behind its own, where the text has some.
pub fn read_clauses(
    alloc: Global,
    formula: Formula,
    text: &str,
) -> Result<Option<Formula>, AllocError> {
    let mut formula = formula;
    for part in text.split(';') {
        let Some(clause) = read_clause(alloc, formula.booleans(), part)? else {
            return Ok(None);
        };
        formula.add_clause(clause)?;
    }
    Ok(Some(formula))
}
