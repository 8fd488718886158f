//! The line of a verdict, and the status of the run.
ghost use Rattle.std.specs.Prelude.{◌≡◌};
ghost use Rattle.patty_run.specs.Outside.{output_seen};
ghost use Rattle.patty_run.specs.Printed.{joined, PutsAll};
ghost use Rattle.patty_run.specs.Programs.{lines_of, status_of};
ghost use Rattle.patty_run.specs.inside.Runs.{PrintsAs};
ghost use Rattle.validator.specs.Lines as lines;
ghost use Rattle.validator.specs.Validator.{validator};

use crate::answer::Answer;
use crate::lines::line_of;
use patty_io::{Sink, SinkFail, Status};
use patty_run::{Stop, finish, put_bytes, put_stop, status_of_stop};
use plan_judge::Outcome;
use plan_step::StepFail;
use std::alloc::Global;

const USAGE: &str = "usage: patty_val DOMAIN PROBLEM PLAN\n";

fn put_answer<O: Sink>(alloc: Global, answer: &Answer, out: &mut O) -> Result<(), SinkFail>
    ensures { PutsAll (output_seen O.written O.faults out.old out.new) (joined (lines.lines answer.now)) result }
{
    let Ok(line) = line_of(alloc, answer) else {
        return Err(SinkFail::Memory);
    };
    put_bytes(out, &line)
}

fn status_of_failure(fail: &StepFail) -> u8
    ensures { result ≡ lines.failure_status fail.now }
{
    match fail {
        StepFail::Wide(_) | StepFail::Memory => 2,
        StepFail::Arity
        | StepFail::ArgType
        | StepFail::Condition(_)
        | StepFail::NoValue(_)
        | StepFail::Clash(_) => 1,
    }
}

fn status_of_outcome(outcome: &Outcome) -> u8
    ensures { result ≡ lines.outcome_status outcome.now }
{
    match outcome {
        Outcome::Valid => 0,
        Outcome::PartFails(failed) => status_of_failure(&failed.fail.fail),
        Outcome::GoalFails => 1,
        Outcome::GoalWide(_) => 2,
    }
}

fn status_of_answer(answer: &Answer) -> u8
    ensures { result ≡ lines.status answer.now }
{
    match answer {
        Answer::PlanFault { .. } => 3,
        Answer::Judged { outcome, .. } => status_of_outcome(outcome),
    }
}

fn put_verdict<O: Sink>(
    alloc: Global,
    verdict: &Result<Answer, Stop>,
    out: &mut O,
) -> Result<(), SinkFail>
    ensures { PutsAll (output_seen O.written O.faults out.old out.new) (joined (lines_of validator verdict.now)) result }
{
    match verdict {
        Ok(answer) => put_answer(alloc, answer, out),
        Err(stop) => put_stop(alloc, USAGE, stop, out),
    }
}

fn status_of_verdict(verdict: &Result<Answer, Stop>) -> u8
    ensures { result ≡ status_of validator verdict.now }
{
    match verdict {
        Ok(answer) => status_of_answer(answer),
        Err(stop) => status_of_stop(stop),
    }
}

/// Prints a verdict.
pub fn print<O: Sink>(alloc: Global, verdict: &Result<Answer, Stop>, out: &mut O) -> Status
    ensures { PrintsAs (output_seen O.written O.faults out.old out.new) (lines_of validator verdict.now) (status_of validator verdict.now) result.code }
{
    let written = put_verdict(alloc, verdict, out);
    finish(written, status_of_verdict(verdict))
}
