//! Linearity: of a product's factors one at most reads a changing function, and of a quotient's parts only the dividend
//! may read one.
//!
//! Begin with `Changing`, which tells by their names the functions that effects change.
#![tactic(auto)]

mod laws;
mod linear;

pub use laws::written_and_resolved_read_alike;
pub use linear::{
    Changing, judge_domain_linearity, judge_goal_linearity, operators_rise, scales_rise,
};
