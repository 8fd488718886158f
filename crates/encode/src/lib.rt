//! The formula of n copies of a pattern, whose definition and laws are in `encode_laws`: one occurrence after the other, made of the
//! parts in `encode_rows`, and the goal behind them. Begin with `encode`.
#![tactic(auto)]

mod copying;
mod counting;
mod encoding;
mod failure;
mod occurring;
mod starting;

pub use counting::counts_of;
pub use encoding::encode;
pub use failure::{AtomWide, EncodeFail};
