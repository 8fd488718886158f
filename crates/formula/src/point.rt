//! Points: a fraction for each numeric variable and a truth for each Boolean.
use frac128::Frac;
use sqlite_items::Items;

/// The value of each numeric variable and the truth of each Boolean, by their numbers.
#[derive(Debug, Drop)]
pub struct Point {
    pub values: Items<Frac>,
    pub truth: Items<bool>,
}
