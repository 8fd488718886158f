//! What is made before anything is printed: the ground task, its layers and its pattern.
ghost use Rattle.std.specs.Prelude.{◌≡◌};
ghost use Rattle.search.specs.inside.Opening as opening;

use crate::found::SearchFail;
use ground::{GroundFail, Grounded, ground};
use pattern::{Pattern, pattern_of};
use pddl_task::Task;
use plain_formula::is_plain_task;
use relaxed::{LayerFail, RangeWide, layers_of};
use std::alloc::Global;

/// A ground task and its pattern.
#[derive(Drop)]
pub(crate) struct Opened {
    pub(crate) grounded: Grounded,
    pub(crate) pattern: Pattern,
}

#[derive(Drop)]
pub(crate) enum Opening {
    Layered(Opened),
    /// Taking a range passes 128 bits, so there is no pattern.
    Unlayered {
        grounded: Grounded,
        range: RangeWide,
    },
}

/// The ground task, where it has no numbers.
fn make_ready(alloc: Global, task: &Task) -> Result<Grounded, SearchFail>
    ensures { opening.Readies task.now result }
{
    match ground(alloc, task) {
        Ok(grounded) => {
            if is_plain_task(grounded.task()) {
                Ok(grounded)
            } else {
                Err(SearchFail::NotBuilt)
            }
        }
        Err(GroundFail::Memory) => Err(SearchFail::Memory),
        Err(fail) => Err(SearchFail::Ground(fail)),
    }
}

/// The pattern of a ground task.
fn with_pattern(alloc: Global, task: &Task, grounded: Grounded) -> Result<Opening, SearchFail>
    requires { opening.IsReady task.now grounded }
    ensures { opening.Opens task.now result }
{
    let _ = task;
    let layers = match layers_of(alloc, grounded.task()) {
        Ok(layers) => layers,
        Err(LayerFail::RangeWide(range)) => return Ok(Opening::Unlayered { grounded, range }),
        Err(LayerFail::Memory) => return Err(SearchFail::Memory),
    };
    match pattern_of(alloc, grounded.task(), &layers) {
        Ok(pattern) => Ok(Opening::Layered(Opened { grounded, pattern })),
        Err(_) => Err(SearchFail::Memory),
    }
}

/// The ground task of a task, and its pattern where no range passes.
pub(crate) fn make_opening(alloc: Global, task: &Task) -> Result<Opening, SearchFail>
    ensures { opening.Opens task.now result }
{
    match make_ready(alloc, task) {
        Ok(grounded) => with_pattern(alloc, task, grounded),
        Err(fail) => Err(fail),
    }
}
