//! The planner's top call: the words, then the files, then the task of the texts, and what the planner prints for it.
//!
//! `plan_run` carries one word, `IsPlanRun`: a sentence for each status, and what is due.
ghost use Rattle.std.specs.Prelude.{◌≡◌, ◌≤◌, [], ◌∷◌, Some, None};
ghost use Rattle.patty_run.specs.declared.input.Input.TheVariants as input;
ghost use Rattle.patty_run.specs.Inputs.{input_file};
ghost use Rattle.patty_run.specs.Outside.{files_seen, output_seen, outside_seen};
ghost use Rattle.patty_run.specs.Causes.{Causes, Counts};
ghost use Rattle.patty_run.specs.Printed.{stop_lines, stop_status};
ghost use Rattle.patty_run.specs.inside.Runs.{PrintsAs};
ghost use Rattle.planner.specs.Words.{files_of, limits_in};
ghost use Rattle.planner.specs.Planner.{usage_line, IsPlanRun};
ghost use Rattle.planner.specs.inside.Answering.{reader, RunsOn};

use crate::answering::answer;
use crate::words::limits_of;
use patty_io::{Shelf, Sink, Status};
use patty_run::{
    Input, NamedInput, Stop, finish, put_stop, read_task, status_of_stop, take_inputs,
};
use pddl_task::Task;
use planner_text::Limits;
use planner_text::laws::{none_is_reached, plan_is_least};
use std::alloc::Global;

const USAGE: &str = "usage: patty DOMAIN PROBLEM [--max-n N] [--steps B] [--pivots P] [--flat]\n";

fn read_files<F: Shelf>(
    alloc: Global,
    domain: &str,
    problem: &str,
    files: &mut F,
) -> Result<Task, Stop>
    ensures caused { Causes (files_seen F.content F.faults files.old files.new) (Some (input_file input.Domain domain.now ∷ input_file input.Problem problem.now ∷ [])) reader result }
    ensures counts { Counts (files_seen F.content F.faults files.old files.new) result }
{
    let inputs = [
        NamedInput {
            input: Input::Domain,
            name: domain,
        },
        NamedInput {
            input: Input::Problem,
            name: problem,
        },
    ];
    let taken = match take_inputs(alloc, files, &inputs) {
        Ok(taken) => taken,
        Err(stop) => return Err(stop),
    };
    let [domain, problem] = taken.as_slice() else {
        unreachable!()
    };
    read_task(alloc, domain, problem)
}

fn print_stop<O: Sink>(alloc: Global, stop: &Stop, out: &mut O) -> Status
    ensures { PrintsAs (output_seen O.written O.faults out.old out.new) (stop_lines usage_line stop.now) (stop_status stop.now) result.code }
{
    let written = put_stop(alloc, USAGE, stop, out);
    finish(written, status_of_stop(stop))
}

/// Plans for the task of two files.
fn run_on<F: Shelf, O: Sink>(
    alloc: Global,
    domain: &str,
    problem: &str,
    limits: &Limits,
    files: &mut F,
    out: &mut O,
) -> Status
    requires { limits.now.max_n ≤ 1000 }
    ensures { RunsOn (files_seen F.content F.faults files.old files.new) (output_seen O.written O.faults out.old out.new) (Some (input_file input.Domain domain.now ∷ input_file input.Problem problem.now ∷ [])) limits.now result.code }
{
    match read_files(alloc, domain, problem, files) {
        Ok(task) => answer(alloc, &task, limits, out),
        Err(stop) => print_stop(alloc, &stop, out),
    }
}

fn run<F: Shelf, O: Sink>(alloc: Global, words: &[String], files: &mut F, out: &mut O) -> Status
    ensures { RunsOn (files_seen F.content F.faults files.old files.new) (output_seen O.written O.faults out.old out.new) (files_of words.now) (limits_in words.now) result.code }
{
    let [domain, problem, options @ ..] = words else {
        return print_stop(alloc, &Stop::Usage, out);
    };
    match limits_of(options) {
        Some(limits) => run_on(
            alloc,
            domain.as_str(),
            problem.as_str(),
            &limits,
            files,
            out,
        ),
        None => print_stop(alloc, &Stop::Usage, out),
    }
}

/// Runs the planner on the words behind its name: two file names, and then options, `--max-n N`, `--steps B` and `--pivots P`.
///
/// The statuses: 0 a plan, 1 no plan up to N copies of the pattern, 2 left open, 3 a text or its task is refused, 4 the words are
/// refused, 5 a file can't be read, 6 a line can't be written, 7 memory ran out.
pub fn plan_run<F: Shelf, O: Sink>(
    alloc: Global,
    words: &[String],
    files: &mut F,
    out: &mut O,
) -> Status
    ensures { IsPlanRun (outside_seen words.now (files_seen F.content F.faults files.old files.new) (output_seen O.written O.faults out.old out.new)) result.code }
{
    plan_is_least();
    none_is_reached();
    run(alloc, words, files, out)
}
