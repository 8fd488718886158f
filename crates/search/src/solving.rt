//! One formula: the log of solving it, and what came of it.
ghost use Rattle.std.specs.Prelude.{◌≡◌, IfOk};
ghost use Rattle.std.specs.List.{All};
ghost use Rattle.theory_law.specs.Seen.{IsMine, at_start};
ghost use Rattle.search.specs.inside.Solving as solving;

use crate::log_lines::LogLines;
use clause_core::laws::point_of_a_log_meets_the_formula;
use clause_core::{Core, CoreFail, Outcome};
use formula::{Formula, Point};
use planner_text::Limits;
use sqlite_items::Items;
use std::alloc::{AllocError, Global};
use theory_law::{Coefs, StartFail, Theory, Trace};

/// What came of a formula.
#[derive(Drop)]
pub(crate) enum Came {
    /// The log derives the empty clause.
    Refuted,
    /// A point meets the formula.
    Solution(Point),
    /// The steps of the log are spent.
    Spent,
    /// A check of the theory is stuck.
    Stuck(Trace),
}

/// The lines of a log, and what came of it.
#[derive(Drop)]
pub(crate) struct Attempt {
    pub(crate) lines: Items<Items<u8>>,
    pub(crate) came: Came,
}

/// A theory that takes all atoms, started on the formula.
fn start_theory<T: Theory>(alloc: Global, formula: &Formula, pivots: u64) -> Result<T, AllocError>
    requires { All (IsMine T.takes formula.now.counts) formula.now.atoms }
    ensures { IfOk result (λ t. T.seen t ≡ at_start formula.now pivots) }
{
    match T::start(alloc, formula, pivots) {
        Ok(theory) => Ok(theory),
        Err(StartFail::NotMine(_)) => unreachable!(),
        Err(StartFail::Memory) => Err(AllocError),
    }
}

/// Solves the formula of a core, and keeps the lines of its log.
fn run_core<T: Theory<Why = Coefs>>(
    alloc: Global,
    core: Core<T>,
    limits: &Limits,
) -> Result<Attempt, AllocError>
    requires pivots { (T.seen core.theory).pivots ≡ limits.now.pivots }
    requires shows { solving.ShowsLemmas T.shown }
    requires stops { solving.StopsInTime limits.now T.stuck }
    ensures { IfOk result (solving.IsAttempt limits.now core.formula) }
{
    point_of_a_log_meets_the_formula::<Coefs>();
    let mut sink = LogLines {
        alloc,
        lines: Items::new(alloc),
    };
    let came = match core.solve(limits.steps, &mut sink) {
        Ok(Outcome::Found(point)) => Came::Solution(point),
        Ok(Outcome::Empty) => Came::Refuted,
        Err(CoreFail::Steps) => Came::Spent,
        Err(CoreFail::Wide(trace)) => Came::Stuck(trace),
        Err(CoreFail::Pivots(trace)) => Came::Stuck(trace),
        Err(CoreFail::Sink) => unreachable!(),
        Err(CoreFail::Memory) => return Err(AllocError),
    };
    Ok(Attempt {
        lines: sink.lines,
        came,
    })
}

/// Solves a formula over a theory that takes its atoms.
pub(crate) fn solve<T: Theory<Why = Coefs>>(
    alloc: Global,
    formula: Formula,
    limits: &Limits,
) -> Result<Attempt, AllocError>
    requires mine { All (IsMine T.takes formula.counts) formula.atoms }
    requires shows { solving.ShowsLemmas T.shown }
    requires stops { solving.StopsInTime limits.now T.stuck }
    ensures { IfOk result (solving.IsAttempt limits.now formula) }
{
    let theory = start_theory::<T>(alloc, &formula, limits.pivots)?;
    let core = Core::new(alloc, formula, theory)?;
    run_core(alloc, core, limits)
}
