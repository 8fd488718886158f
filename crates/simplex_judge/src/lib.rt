//! The parts of a check of the simplex over a formula's atoms. Begin with `begin` in `beginning`: the asserted literals and the bounds
//! that they give; `run` makes the pivots. `clash` answers a lemma once `sum` has made its sum, `solution` makes the point of a
//! settled configuration from its `pairs` and tests it, and `verdict_at` cuts it at a count that isn't whole. `trace` is where a
//! check stopped; `specs/Stuck` says what holds of it.
#![tactic(auto)]

mod beginning;
mod cutting;
mod judging;
mod pointing;
mod running;
mod settling;
mod summing;
mod tracing;

pub use beginning::{Begun, Both, begin};
pub use cutting::verdict_at;
pub use judging::{Judged, clash, solution};
pub use pointing::{PointFail, point};
pub use running::{Ran, run};
pub use settling::{pairs, test, truths};
pub use summing::sum;
pub use tracing::trace;
