//! The validator's top call: first a verdict on the words, the files, the texts and the plan, then its line.
//!
//! `val_run` carries one word, `IsValRun`: a sentence for each status, and what is due.
ghost use Rattle.std.specs.Prelude.{[], ◌∷◌, Some};
ghost use Rattle.patty_run.specs.declared.input.Input.TheVariants as input;
ghost use Rattle.patty_run.specs.Inputs.{input_file};
ghost use Rattle.patty_run.specs.Outside.{files_seen, output_seen, outside_seen};
ghost use Rattle.patty_run.specs.Causes.{Causes, Counts};
ghost use Rattle.patty_run.specs.inside.Runs.{Runs};
ghost use Rattle.validator.specs.Words.{files_of};
ghost use Rattle.validator.specs.Validator.{validator, IsValRun};

use crate::answer::Answer;
use crate::judging::judge_texts;
use crate::printing::print;
use patty_io::{Shelf, Sink, Status};
use patty_run::{Input, NamedInput, Stop, take_inputs};
use std::alloc::Global;

fn judge_files<F: Shelf>(
    alloc: Global,
    domain: &str,
    problem: &str,
    plan: &str,
    files: &mut F,
) -> Result<Answer, Stop>
    ensures caused { Causes (files_seen F.content F.faults files.old files.new) (Some (input_file input.Domain domain.now ∷ input_file input.Problem problem.now ∷ input_file input.Plan plan.now ∷ [])) validator result }
    ensures counts { Counts (files_seen F.content F.faults files.old files.new) result }
{
    let inputs = [
        NamedInput {
            input: Input::Domain,
            name: domain,
        },
        NamedInput {
            input: Input::Problem,
            name: problem,
        },
        NamedInput {
            input: Input::Plan,
            name: plan,
        },
    ];
    let taken = match take_inputs(alloc, files, &inputs) {
        Ok(taken) => taken,
        Err(stop) => return Err(stop),
    };
    let [domain, problem, plan] = taken.as_slice() else {
        unreachable!()
    };
    judge_texts(alloc, domain, problem, plan)
}

fn judge<F: Shelf>(alloc: Global, words: &[String], files: &mut F) -> Result<Answer, Stop>
    ensures caused { Causes (files_seen F.content F.faults files.old files.new) (files_of words.now) validator result }
    ensures counts { Counts (files_seen F.content F.faults files.old files.new) result }
{
    match words {
        [domain, problem, plan] => judge_files(
            alloc,
            domain.as_str(),
            problem.as_str(),
            plan.as_str(),
            files,
        ),
        _ => Err(Stop::Usage),
    }
}

fn run<F: Shelf, O: Sink>(alloc: Global, words: &[String], files: &mut F, out: &mut O) -> Status
    ensures { Runs validator (outside_seen words.now (files_seen F.content F.faults files.old files.new) (output_seen O.written O.faults out.old out.new)) result.code }
{
    let verdict = judge(alloc, words, files);
    print(alloc, &verdict, out)
}

/// Runs the validator on the words behind its name: the file names of a domain, a problem and a plan.
///
/// The statuses: 0 the plan is valid, 1 it isn't, 2 an operation passes 128 bits, 3 a text is refused, 4 the words are
/// refused, 5 a file can't be read, 6 the line can't be written, 7 memory ran out.
pub fn val_run<F: Shelf, O: Sink>(
    alloc: Global,
    words: &[String],
    files: &mut F,
    out: &mut O,
) -> Status
    ensures { IsValRun (outside_seen words.now (files_seen F.content F.faults files.old files.new) (output_seen O.written O.faults out.old out.new)) result.code }
{
    run(alloc, words, files, out)
}
