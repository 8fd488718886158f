//! Points of a formula of n copies, as rows give them: the values of the numeric variables, and the truths of the Booleans as a word
//! of `0` and `1`. Begin with `answer_point`.
ghost use Rattle.std.specs.Prelude.{◌≤◌};
ghost use Rattle.pattern.specs.Pattern.{IsPattern};
ghost use Rattle.formula.specs.Meets.{IsPointOf};

use crate::expressions::read_fraction;
use crate::refusal::Refusal;
use encode::{EncodeFail, encode};
use formula::{Formula, Point};
use frac128::Frac;
use pattern::Pattern;
use row_files::show_wide;
use sqlite_items::Items;
use std::alloc::{AllocError, Global};
use task_core::GroundTask;

fn read_values(alloc: Global, text: &str) -> Result<Items<Frac>, Refusal> {
    let mut values = Items::new(alloc);
    for word in text.split_whitespace() {
        values.push(read_fraction(word)?)?;
    }
    Ok(values)
}

fn read_truth(alloc: Global, text: &str) -> Result<Items<bool>, Refusal> {
    let mut truth = Items::new(alloc);
    for letter in text.chars() {
        match letter {
            '0' => truth.push(false)?,
            '1' => truth.push(true)?,
            _ => return Err(Refusal::Form),
        }
    }
    Ok(truth)
}

/// The point of two texts.
pub fn read_point(alloc: Global, values: &str, truth: &str) -> Result<Point, Refusal> {
    let values = read_values(alloc, values)?;
    let truth = read_truth(alloc, truth)?;
    Ok(Point { values, truth })
}

fn show_meets(alloc: Global, formula: &Formula, p: &Point) -> Result<String, AllocError>
    requires { IsPointOf formula.now p.now }
{
    match formula.meets(p) {
        Ok(true) => String::from_str(alloc, "met"),
        Ok(false) => String::from_str(alloc, "not met"),
        Err(wide) => {
            let operation = show_wide(alloc, &wide)?;
            format!(in alloc; "wide {operation}")
        }
    }
}

fn test_point(alloc: Global, formula: &Formula, p: &Point) -> Result<String, AllocError> {
    let values = p.values.len() as u64;
    let truths = p.truth.len() as u64;
    if values >= formula.vars() && truths >= formula.booleans() {
        show_meets(alloc, formula, p)
    } else {
        String::from_str(alloc, "no point")
    }
}

/// Whether the point meets the formula of n copies, or the operation that passes 128 bits.
pub fn answer_point(
    alloc: Global,
    task: &GroundTask,
    pattern: &Pattern,
    n: u32,
    p: &Point,
) -> Result<String, AllocError>
    requires pattern { IsPattern task.now pattern.now }
    requires copies { n ≤ 1000 }
{
    match encode(alloc, task, pattern, n) {
        Ok(formula) => test_point(alloc, &formula, p),
        Err(EncodeFail::AtomWide(_)) => String::from_str(alloc, "no formula"),
        Err(EncodeFail::Memory) => Err(AllocError),
    }
}
