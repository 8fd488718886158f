//! Unlimited fractions: the mathematics that every later proof about numbers stands on. There is nothing to run. The
//! definitions are in `specs/` (begin with `Fraction.antt`), the lemmas in `proofs/`, and each function here is a law,
//! stated by its contract and proved for all fractions.
#![tactic(auto)]

pub mod arithmetic;
pub mod farkas;
pub mod order;
pub mod rounding;
