//! Ground actions.
use frac128::Frac;
use lin::{Cmp, Lin};
use sqlite_items::Items;

/// An action over numbered atoms and functions. It needs its literals (an atom, and the truth that it must have) and its
/// comparisons (an expression, and how its value compares with 0). Then it makes atoms true, makes others false, adds
/// amounts to functions, and gives others the values that expressions have in the old state.
#[derive(Debug, Drop)]
pub struct GAction {
    pub lits: Items<(u64, bool)>,
    pub cmps: Items<(Lin, Cmp)>,
    pub adds: Items<u64>,
    pub dels: Items<u64>,
    pub incs: Items<(u64, Frac)>,
    pub sets: Items<(u64, Lin)>,
}
