//! The trail of a search over clauses: the literals that are true, in order, and what clauses say under them. Begin with `Trail`
//! in `trail`; `scanning` reads clauses under it, `propagating` makes true what they force, and `decisions` finds and cuts decisions.
#![tactic(auto)]

mod decisions;
mod propagating;
mod scanning;
mod trail;

pub use decisions::{cut, first_decision, last_decision};
pub use propagating::{assert_clause, units};
pub use scanning::{Next, Scanned, differs, first_open, lits_at, scan};
pub use trail::{Entry, Trail};
