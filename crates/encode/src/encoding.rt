//! The formula of n copies of the pattern. Begin with `encode`.
ghost use Rattle.std.specs.Prelude.{◌≡◌, ◌≤◌, length, IfOk};
ghost use Rattle.formula.specs.Contents.{IsFormula};
ghost use Rattle.pattern.specs.Pattern.{IsPattern};
ghost use Rattle.encode.specs.Answer.{refusal_of, EncodeAnswers};

use crate::copying::make_all;
use crate::failure::{AtomWide, EncodeFail};
use crate::starting::symbols_at_start;
use formula::Formula;
use lin::LinFail;
use pattern::Pattern;
use std::alloc::Global;
use task_core::GroundTask;

// The operation with the number of the clause that would be the next.
fn refusal(formula: &Formula, fail: LinFail) -> EncodeFail
    ensures { result ≡ refusal_of (length formula.now.clauses) fail }
{
    match fail {
        LinFail::Wide(wide) => EncodeFail::AtomWide(AtomWide {
            row: formula.clauses().len() as u64 + 1,
            wide,
        }),
        LinFail::Memory => EncodeFail::Memory,
    }
}

/// The formula of n copies of the task's pattern. Some point meets it exactly where a word of n copies is a valid plan. An
/// operation that passes 128 bits is answered with the number of the clause for which it is made, from 1.
pub fn encode(
    alloc: Global,
    task: &GroundTask,
    pattern: &Pattern,
    n: u32,
) -> Result<Formula, EncodeFail>
    requires pattern { IsPattern task.now pattern.now }
    requires copies { n ≤ 1000 }
    ensures answers { EncodeAnswers task.now pattern.now n result }
    ensures formula { IfOk result IsFormula }
{
    let mut symbols = symbols_at_start(alloc, task)?;
    let mut formula = Formula::new(alloc);
    match make_all(alloc, &mut formula, &mut symbols, task, pattern.places(), n) {
        Ok(()) => {
            let _clauses = formula.clauses();
            Ok(formula)
        }
        Err(fail) => Err(refusal(&formula, fail)),
    }
}
