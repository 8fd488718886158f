//! Exact fractions of 128 bits. Each operation gives the exact result, or says that a number which it needs does not fit.
//! Begin with `Frac` in `fraction`; then `operations` (add, sub, mul, div), `compare` (order and rounding down),
//! `text` (`n/d`) and `decimal` (`1.5`). `integer` and `gcd` have the steps on whole numbers below them.
#![tactic(auto)]

mod backward;
mod compare;
mod decimal;
mod fraction;
mod gcd;
mod integer;
pub mod laws;
mod operations;
mod spelling;
mod text;

pub use fraction::Frac;
pub use operations::{Op, Wide};
pub use text::NumFault;
