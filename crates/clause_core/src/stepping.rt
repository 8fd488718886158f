//! The next step of the log. Begin with `advance`: it searches, and makes a step or a point of what it stopped at.
ghost use Rattle.std.specs.Prelude.{◌≡◌, IfOk, IfErr};
ghost use Rattle.theory_law.specs.Log.{HasEmpty};
ghost use Rattle.theory_law.specs.Verdicts.{FailHolds};
ghost use Rattle.clause_core.specs.inside.Searching.{EventHolds};
ghost use Rattle.clause_core.specs.inside.Taking.{NextHolds};
ghost use Rattle.clause_core.specs.Stepping.{IsStuck};

use crate::Core;
use crate::search::{Event, learned, point_of, search};
use formula::Point;
use std::alloc::AllocError;
use theory_law::{LogStep, Theory, TheoryFail};

/// What comes next: a step of the log, or a point.
#[derive(Drop)]
pub(crate) enum Next<W> {
    Step(LogStep<W>),
    Point(Point),
}

/// The step or the point of an event.
fn next_of<T: Theory>(core: &Core<T>, event: Event<T::Why>) -> Result<Next<T::Why>, AllocError>
    requires event { EventHolds T.shown T.cuts core.now (T.fixed core.now.theory) (T.cut core.now.theory) event }
    requires none { HasEmpty core.now.formula → ⊥ }
    ensures { IfOk result (NextHolds T.shown T.cuts core.now.formula (T.cut core.now.theory)) }
{
    match event {
        Event::Conflict(k) => Ok(Next::Step(learned(core, k)?)),
        Event::Clash { clause, why } => Ok(Next::Step(LogStep::Lemma { clause, why })),
        Event::Cut { var, k } => Ok(Next::Step(LogStep::Split {
            boolean: core.formula.booleans(),
            var,
            k,
            point: point_of(core)?,
        })),
        Event::Full => Ok(Next::Point(point_of(core)?)),
    }
}

/// Searches for the next step of the log, or for a point.
pub(crate) fn advance<T: Theory>(core: &mut Core<T>) -> Result<Next<T::Why>, TheoryFail>
    requires { HasEmpty core.old.formula → ⊥ }
    ensures formula { core.new.formula ≡ core.old.formula }
    ensures pivots { (T.seen core.new.theory).pivots ≡ (T.seen core.old.theory).pivots }
    ensures next { IfOk result (NextHolds T.shown T.cuts core.new.formula (T.cut core.new.theory)) }
    ensures trouble { IfErr result (FailHolds (IsStuck T.stuck core.old.formula (T.seen core.old.theory).pivots)) }
{
    let event = match search(core) {
        Ok(event) => event,
        Err(fail) => return Err(fail),
    };
    match next_of(core, event) {
        Ok(next) => Ok(next),
        Err(_fail) => Err(TheoryFail::Memory),
    }
}
