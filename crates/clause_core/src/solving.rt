//! The whole search, step by step of its log. Begin with `Core::solve`. It goes in turns: `hand_next` searches for a step and
//! hands it to the sink, and `turn` takes it.
ghost use Rattle.std.specs.Prelude.{◌≡◌, ◌≤◌, [], IsTrue, IfOk, IfErr, Some, ◌↔◌};
ghost use Rattle.std.specs.List.{Contains};
ghost use Rattle.theory_law.specs.Log.{HasEmpty, IsSound, after};
ghost use Rattle.clause_core.specs.inside.Taking.{step_clause, core_fail, IsOfCut};
ghost use Rattle.clause_core.specs.inside.Handing.{IsHanded, HandedHolds, IsOver, IsEnd};
ghost use Rattle.clause_core.specs.Solved.{IsSolved};

use crate::Core;
use crate::stepping::{Next, advance};
use crate::taking::take;
use formula::{Clause, Point};
use theory_law::{LogFail, LogSink, LogStep, Theory, TheoryFail, Trace};
use thiserror::Error;

/// What a search found.
#[derive(Drop)]
pub enum Outcome {
    /// A point that meets the formula.
    Found(Point),
    /// The empty clause stands, so there is none.
    Empty,
}

/// Why a search found nothing.
#[derive(Debug, Drop, Error)]
pub enum CoreFail {
    #[error("the steps of the log are spent")]
    Steps,
    #[error("an operation passes 128 bits")]
    Wide(Trace),
    #[error("the pivots of a check are spent")]
    Pivots(Trace),
    #[error("the log can't be written")]
    Sink,
    #[error("out of memory")]
    Memory,
}

/// What a search answers.
type Answer = Result<Outcome, CoreFail>;

/// A step that the sink took, or the answer of the search.
#[derive(Drop)]
enum Handed<W> {
    Step(LogStep<W>),
    Over(Answer),
}

/// Whether the step's clause is empty.
fn is_empty<W>(step: &LogStep<W>) -> bool
    ensures { IsTrue result ↔ (step_clause step.now ≡ Some []) }
{
    match step {
        LogStep::Lemma { clause, why: _why } => clause.lits().is_empty(),
        LogStep::Learn {
            clause,
            hints: _hints,
        } => clause.lits().is_empty(),
        LogStep::Split {
            boolean: _boolean,
            var: _var,
            k: _k,
            point: _point,
        } => false,
    }
}

/// Whether one of the clauses is empty.
fn any_empty(clauses: &[Clause]) -> bool
    ensures { IsTrue result ↔ Contains clauses.now [] }
{
    for clause in clauses {
        if clause.lits().is_empty() {
            return true;
        }
    }
    false
}

/// Whether the empty clause stands.
fn has_empty<T: Theory>(core: &Core<T>) -> bool
    ensures { IsTrue result ↔ HasEmpty core.now.formula }
{
    any_empty(core.formula.clauses())
}

fn of_theory(fail: TheoryFail) -> CoreFail
    ensures { result ≡ core_fail fail }
{
    match fail {
        TheoryFail::Wide(trace) => CoreFail::Wide(trace),
        TheoryFail::Pivots(trace) => CoreFail::Pivots(trace),
        TheoryFail::Memory => CoreFail::Memory,
    }
}

/// Searches for the next step of the log, and hands it to the sink.
fn hand_next<T: Theory, S: LogSink<T::Why>>(core: &mut Core<T>, sink: &mut S) -> Handed<T::Why>
    requires { HasEmpty core.old.formula → ⊥ }
    ensures formula { core.new.formula ≡ core.old.formula }
    ensures pivots { (T.seen core.new.theory).pivots ≡ (T.seen core.old.theory).pivots }
    ensures later { S.faults sink.old ≤ S.faults sink.new }
    ensures handed { HandedHolds T.shown T.stuck T.cuts (T.seen core.old.theory).pivots core.old.formula (T.cut core.new.theory) (S.stands_for sink.old) (S.stands_for sink.new) (S.stopped_in sink.new) (S.faults sink.old) (S.faults sink.new) result }
{
    let step = match advance(core) {
        Ok(Next::Step(step)) => step,
        Ok(Next::Point(point)) => return Handed::Over(Ok(Outcome::Found(point))),
        Err(fail) => return Handed::Over(Err(of_theory(fail))),
    };
    match sink.step(&step) {
        Ok(()) => Handed::Step(step),
        Err(LogFail::Failed) => Handed::Over(Err(CoreFail::Sink)),
        Err(LogFail::Memory) => Handed::Over(Err(CoreFail::Memory)),
    }
}

/// Takes a step that was handed. The core with it, or the answer where the search ends there.
fn taken<T: Theory>(core: Core<T>, step: LogStep<T::Why>) -> Result<Core<T>, Answer>
    requires none { HasEmpty core.formula → ⊥ }
    requires sound { IsSound T.shown core.formula step }
    requires cut { IsOfCut (T.cut core.theory) step }
    ensures formula { IfOk result (λ c. c.formula ≡ after core.formula step) }
    ensures none { IfOk result (λ c. HasEmpty c.formula → ⊥) }
    ensures pivots { IfOk result (λ c. (T.seen c.theory).pivots ≡ (T.seen core.theory).pivots) }
    ensures end { IfErr result (IsEnd core.formula step) }
{
    let empty = is_empty(&step);
    match take(core, step) {
        Ok(core) => {
            if empty {
                return Err(Ok(Outcome::Empty));
            }
            Ok(core)
        }
        Err(_fail) => Err(Err(CoreFail::Memory)),
    }
}

/// Searches for the next step of the log, hands it to the sink, and takes it. The core with it, or the answer of the search.
fn turn<T: Theory, S: LogSink<T::Why>>(core: Core<T>, sink: &mut S) -> Result<Core<T>, Answer>
    requires { HasEmpty core.formula → ⊥ }
    ensures later { S.faults sink.old ≤ S.faults sink.new }
    ensures handed { IfOk result (λ c. IsHanded T.shown T.cuts core.formula c.formula (S.stands_for sink.old) (S.stands_for sink.new) 1) }
    ensures none { IfOk result (λ c. HasEmpty c.formula → ⊥) }
    ensures pivots { IfOk result (λ c. (T.seen c.theory).pivots ≡ (T.seen core.theory).pivots) }
    ensures over { IfErr result (IsOver T.shown T.stuck T.cuts (T.seen core.theory).pivots core.formula (S.stands_for sink.old) (S.stands_for sink.new) (S.stopped_in sink.new) (S.faults sink.old) (S.faults sink.new)) }
{
    let mut core = core;
    match hand_next(&mut core, sink) {
        Handed::Step(step) => taken(core, step),
        Handed::Over(answer) => Err(answer),
    }
}

/// Goes on in turns, at most so many.
fn run<T: Theory, S: LogSink<T::Why>>(core: Core<T>, steps: u64, sink: &mut S) -> Answer
    requires { HasEmpty core.formula → ⊥ }
    ensures solved { IsSolved T.shown T.stuck T.cuts (T.seen core.theory).pivots core.formula (S.stands_for sink.old) (S.stands_for sink.new) (S.stopped_in sink.new) (S.faults sink.old) (S.faults sink.new) steps result }
    ensures later { S.faults sink.old ≤ S.faults sink.new }
{
    let mut core = core;
    for i in 0..steps {
        core = match turn(core, sink) {
            Ok(core) => core,
            Err(answer) => return answer,
        };
    }
    Err(CoreFail::Steps)
}

impl<T: Theory> Core<T> {
    /// Searches until a point or the empty clause is found, and hands each step of the log to the sink, at most so many.
    pub fn solve<S: LogSink<T::Why>>(self, steps: u64, sink: &mut S) -> Result<Outcome, CoreFail>
        ensures solved { IsSolved T.shown T.stuck T.cuts (T.seen self.theory).pivots self.formula (S.stands_for sink.old) (S.stands_for sink.new) (S.stopped_in sink.new) (S.faults sink.old) (S.faults sink.new) steps result }
        ensures later { S.faults sink.old ≤ S.faults sink.new }
    {
        if has_empty(&self) {
            return Ok(Outcome::Empty);
        }
        run(self, steps, sink)
    }
}
