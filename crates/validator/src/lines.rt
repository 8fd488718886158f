//! The line of an answer.
ghost use Rattle.std.specs.Prelude.{◌≡◌, ◌++◌, OnOk, IfOk};
ghost use Rattle.std.specs.Fmt.{decimal};
ghost use Rattle.patty_run.specs.Printed.{joined};
ghost use Rattle.validator.specs.Lines as lines;

use crate::answer::Answer;
use operation_text::write_operation;
use plan_judge::{Outcome, PartFail};
use plan_step::StepFail;
use std::alloc::{AllocError, Global};

fn first_word(fail: &StepFail) -> &'static [u8]
    ensures { result.now ≡ lines.first_word fail.now }
{
    match fail {
        StepFail::Wide(_) => b"wide ",
        StepFail::Memory => b"",
        StepFail::Arity
        | StepFail::ArgType
        | StepFail::Condition(_)
        | StepFail::NoValue(_)
        | StepFail::Clash(_) => b"invalid ",
    }
}

/// A word, and the number of a leaf.
fn add_leaf(alloc: Global, into: &mut Vec<u8>, word: &str, leaf: u32) -> Result<(), AllocError>
    ensures { OnOk result (into.new.items ≡ into.old.items ++ (word.now ++ decimal leaf)) }
{
    let text = format!(in alloc; "{word}{leaf}")?;
    into.extend_from_slice(text.as_bytes())
}

fn add_reason(alloc: Global, into: &mut Vec<u8>, fail: &StepFail) -> Result<(), AllocError>
    ensures { OnOk result (into.new.items ≡ into.old.items ++ lines.reason fail.now) }
{
    match fail {
        StepFail::Arity => into.extend_from_slice(b"arity"),
        StepFail::ArgType => into.extend_from_slice(b"type"),
        StepFail::Condition(leaf) => add_leaf(alloc, into, "condition ", *leaf),
        StepFail::NoValue(leaf) => add_leaf(alloc, into, "value ", *leaf),
        StepFail::Clash(leaf) => add_leaf(alloc, into, "clash ", *leaf),
        StepFail::Wide(wide) => write_operation(wide, into),
        StepFail::Memory => Ok(()),
    }
}

fn add_failure(alloc: Global, into: &mut Vec<u8>, failed: &PartFail) -> Result<(), AllocError>
    ensures { OnOk result (into.new.items ≡ into.old.items ++ lines.failure failed.now) }
{
    into.extend_from_slice(first_word(&failed.fail.fail))?;
    let part = failed.part;
    let at = failed.fail.at;
    let place = format!(in alloc; "{part} {at} ")?;
    into.extend_from_slice(place.as_bytes())?;
    add_reason(alloc, into, &failed.fail.fail)
}

fn add_outcome(
    alloc: Global,
    into: &mut Vec<u8>,
    outcome: &Outcome,
    steps: u128,
) -> Result<(), AllocError>
    ensures { OnOk result (into.new.items ≡ into.old.items ++ lines.outcome_text outcome.now steps) }
{
    match outcome {
        Outcome::Valid => {
            let text = format!(in alloc; "valid {steps}")?;
            into.extend_from_slice(text.as_bytes())
        }
        Outcome::PartFails(failed) => add_failure(alloc, into, failed),
        Outcome::GoalFails => into.extend_from_slice(b"invalid goal"),
        Outcome::GoalWide(wide) => {
            into.extend_from_slice(b"wide goal ")?;
            write_operation(wide, into)
        }
    }
}

fn add_text(alloc: Global, into: &mut Vec<u8>, answer: &Answer) -> Result<(), AllocError>
    ensures { OnOk result (into.new.items ≡ into.old.items ++ lines.text answer.now) }
{
    match answer {
        Answer::PlanFault { kind, place } => {
            let text = format!(in alloc; "fault plan {kind} {place}")?;
            into.extend_from_slice(text.as_bytes())
        }
        Answer::Judged { outcome, steps } => add_outcome(alloc, into, outcome, *steps),
    }
}

/// The line of an answer, with its line feed.
pub fn line_of(alloc: Global, answer: &Answer) -> Result<Vec<u8>, AllocError>
    ensures { IfOk result (λ line. line.items ≡ joined (lines.lines answer.now)) }
{
    let mut line = Vec::new(alloc);
    add_text(alloc, &mut line, answer)?;
    line.push(b'\n')?;
    Ok(line)
}
