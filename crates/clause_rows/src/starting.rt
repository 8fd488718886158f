//! Where the theory without atoms starts. Begin with `start_on`.
ghost use Rattle.std.specs.Prelude.{◌≡◌, slice_get, Some, true, IfOk};

use formula::Formula;
use frac128::Frac;
use std::alloc::{AllocError, Global};
use theory_law::{NoTheory, StartFail, Theory};

/// One more Boolean: the atom `v0 <= 0` for `a`, and a truth variable for any other letter.
fn add(formula: &mut Formula, letter: u8) -> Result<(), AllocError>
    requires { slice_get formula.old.counts 0 ≡ Some true }
    ensures { formula.new.counts ≡ formula.old.counts }
{
    if letter == b'a' {
        let _number = formula.add_split(0, Frac::ratio(0, 1))?;
        return Ok(());
    }
    let _number = formula.add_truth()?;
    Ok(())
}

/// A formula with one count, and a Boolean for each letter.
fn formula_of(alloc: Global, letters: &[u8]) -> Result<Formula, AllocError> {
    let mut formula = Formula::new(alloc);
    let _count = formula.add_var(true)?;
    for letter in letters {
        add(&mut formula, *letter)?;
    }
    Ok(formula)
}

/// What `start` answers on the formula of these letters.
pub fn start_on(alloc: Global, letters: &[u8]) -> Result<String, AllocError> {
    let formula = formula_of(alloc, letters)?;
    match NoTheory::start(alloc, &formula, 1) {
        Ok(_theory) => String::from_str(alloc, "started"),
        Err(StartFail::NotMine(boolean)) => format!(in alloc; "not mine {boolean}"),
        Err(StartFail::Memory) => Err(AllocError),
    }
}
