//! Plans: what their texts are read as, how they are written, how many steps they have, and what judging them comes to.
ghost use Rattle.std.specs.Prelude.{IfOk};
ghost use Rattle.plan_form.specs.Printed.{IsPlanOf};

use crate::failures::show_fail;
use patty_io::LIMIT;
use pddl_task::Task;
use plan_form::{Part, Plan, flat_len, write_part, write_plan};
use plan_judge::{Outcome, PartFail, judge_plan};
use plan_repeat::RepeatFail;
use plan_step::StepFail;
use plan_text::{PlanRefusal, read_plan};
use row_files::{add_shown, show_fault, show_wide};
use std::alloc::{AllocError, Global};

/// The plan of a text. One that is longer than the readers take counts as want of memory.
fn plan_of(alloc: Global, task: &Task, text: &[u8]) -> Result<Plan, PlanRefusal>
    ensures { IfOk result (IsPlanOf task.now) }
{
    if text.len() > LIMIT {
        return Err(PlanRefusal::Memory);
    }
    read_plan(alloc, task, text)
}

fn show_refusal(alloc: Global, refusal: &PlanRefusal, text: &[u8]) -> Result<String, AllocError> {
    match refusal {
        PlanRefusal::Fault { kind, place } => show_fault(alloc, "plan", *kind, *place, "", text),
        PlanRefusal::Memory => Err(AllocError),
    }
}

/// Adds a part's count, the number of its action and those of its arguments.
fn add_part(alloc: Global, out: &mut String, part: &Part) -> Result<(), AllocError> {
    let count = part.count;
    let action = part.by.action;
    out.push_str(format!(in alloc; "{count} {action}")?.as_str())?;
    for object in part.by.args.as_slice() {
        out.push_str(format!(in alloc; " {object}")?.as_str())?;
    }
    out.push_str(";")
}

fn parts(alloc: Global, plan: &Plan) -> Result<String, AllocError> {
    if plan.parts().is_empty() {
        return String::from_str(alloc, "no parts");
    }
    let mut out = String::new(alloc);
    for part in plan.parts() {
        add_part(alloc, &mut out, part)?;
    }
    Ok(out)
}

/// A plan as it is written in one go.
fn written(alloc: Global, task: &Task, plan: &Plan) -> Result<Vec<u8>, AllocError>
    requires { IsPlanOf task.now plan.now }
{
    let mut text = Vec::new(alloc);
    write_plan(task, plan, &mut text)?;
    Ok(text)
}

/// A plan as it is written part by part.
fn written_by_parts(alloc: Global, task: &Task, plan: &Plan) -> Result<Vec<u8>, AllocError>
    requires { IsPlanOf task.now plan.now }
{
    let mut text = Vec::new(alloc);
    for part in plan.parts() {
        write_part(task, part, &mut text)?;
    }
    Ok(text)
}

/// The parts of a plan as they are written, each way.
fn show_written(alloc: Global, task: &Task, plan: &Plan) -> Result<String, AllocError>
    requires { IsPlanOf task.now plan.now }
{
    let text = written(alloc, task, plan)?;
    let by_parts = written_by_parts(alloc, task, plan)?;
    let mut out = String::new(alloc);
    if text.is_empty() {
        out.push_str("nothing")?;
    }
    add_shown(alloc, &mut out, text.as_slice())?;
    if by_parts.as_slice() != text.as_slice() {
        out.push_str(" | and part by part | ")?;
        add_shown(alloc, &mut out, by_parts.as_slice())?;
    }
    Ok(out)
}

/// What a plan's text is read as.
pub fn answer_plan(alloc: Global, task: &Task, text: &[u8]) -> Result<String, AllocError> {
    match plan_of(alloc, task, text) {
        Ok(plan) => parts(alloc, &plan),
        Err(refusal) => show_refusal(alloc, &refusal, text),
    }
}

/// What is written of the plan that is read.
pub fn answer_written(alloc: Global, task: &Task, text: &[u8]) -> Result<String, AllocError> {
    match plan_of(alloc, task, text) {
        Ok(plan) => show_written(alloc, task, &plan),
        Err(refusal) => show_refusal(alloc, &refusal, text),
    }
}

/// How many steps the plan has that is read.
pub fn answer_length(alloc: Global, task: &Task, text: &[u8]) -> Result<String, AllocError> {
    match plan_of(alloc, task, text) {
        Ok(plan) => flat_len(&plan).to_string(alloc),
        Err(refusal) => show_refusal(alloc, &refusal, text),
    }
}

fn show_part_fail(alloc: Global, failed: &PartFail) -> Result<String, AllocError> {
    let part = failed.part;
    let repetition: &RepeatFail = &failed.fail;
    let at = repetition.at;
    let reason: &StepFail = &repetition.fail;
    let reason = show_fail(alloc, reason)?;
    format!(in alloc; "{part}/{at}: {reason}")
}

fn show_outcome(alloc: Global, judged: Result<Outcome, AllocError>) -> Result<String, AllocError> {
    match judged {
        Err(error) => Err(error),
        Ok(Outcome::Valid) => String::from_str(alloc, "valid"),
        Ok(Outcome::GoalFails) => String::from_str(alloc, "goal fails"),
        Ok(Outcome::GoalWide(wide)) => {
            let wide = show_wide(alloc, &wide)?;
            format!(in alloc; "goal: {wide}")
        }
        Ok(Outcome::PartFails(failed)) => show_part_fail(alloc, &failed),
    }
}

fn show_judged(alloc: Global, task: &Task, plan: &Plan) -> Result<String, AllocError> {
    show_outcome(alloc, judge_plan(alloc, task, plan))
}

/// What judging the plan comes to that is read.
pub fn answer_judge(alloc: Global, task: &Task, text: &[u8]) -> Result<String, AllocError> {
    match plan_of(alloc, task, text) {
        Ok(plan) => show_judged(alloc, task, &plan),
        Err(refusal) => show_refusal(alloc, &refusal, text),
    }
}
