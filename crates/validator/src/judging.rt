//! Three texts to an answer: the task of a domain and a problem, the plan, and its judgement.
ghost use Rattle.std.specs.Prelude.{◌≤◌, [], ◌∷◌, length, IfOk};
ghost use Rattle.patty_run.specs.inside.Runs.{TextsDecide};
ghost use Rattle.validator.specs.Validator.{Judges, validator};

use crate::answer::Answer;
use patty_io::LIMIT;
use patty_run::{Stop, read_task};
use pddl_task::Task;
use plan_form::flat_len;
use plan_judge::judge_plan;
use plan_text::{PlanRefusal, read_plan};
use std::alloc::{AllocError, Global};

/// The judgement of a plan's text.
fn judge_text(alloc: Global, task: &Task, text: &[u8]) -> Result<Answer, AllocError>
    requires { length text.now ≤ LIMIT }
    ensures { IfOk result (Judges task.now text.now) }
{
    let plan = match read_plan(alloc, task, text) {
        Ok(plan) => plan,
        Err(PlanRefusal::Fault { kind, place }) => return Ok(Answer::PlanFault { kind, place }),
        Err(PlanRefusal::Memory) => return Err(AllocError),
    };
    let steps = flat_len(&plan);
    let outcome = judge_plan(alloc, task, &plan)?;
    Ok(Answer::Judged { outcome, steps })
}

/// What the texts of a domain, a problem and a plan come to.
pub fn judge_texts(
    alloc: Global,
    domain: &[u8],
    problem: &[u8],
    plan: &[u8],
) -> Result<Answer, Stop>
    requires domain_small { length domain.now ≤ LIMIT }
    requires problem_small { length problem.now ≤ LIMIT }
    requires plan_small { length plan.now ≤ LIMIT }
    ensures { TextsDecide validator domain.now problem.now (plan.now ∷ []) result }
{
    let task = match read_task(alloc, domain, problem) {
        Ok(task) => task,
        Err(stop) => return Err(stop),
    };
    match judge_text(alloc, &task, plan) {
        Ok(answer) => Ok(answer),
        Err(_) => Err(Stop::Memory),
    }
}
