//! The program's half of grounding one instance: its expressions as constants and linear expressions, and its comparisons,
//! made in the order in which the first operation that passes 128 bits is answered. Begin with `part_of` and `compare`.
#![tactic(auto)]

mod call;
mod changing;
mod comparison;
mod expression;
mod given;
mod joint;
mod part;
mod terms;

pub use call::number;
pub use changing::{changes_func, changes_pred};
pub use comparison::{Compared, compare, is_related};
pub use expression::part_of;
pub use given::Grounding;
pub use part::Part;
pub use terms::{object, objects};
