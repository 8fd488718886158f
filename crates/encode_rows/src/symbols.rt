//! What is known of a symbolic state: a truth for each atom, and an expression over numeric variables for each function.
use crate::clause::Truth;
use lin::Lin;
use sqlite_items::Items;

#[derive(Debug, Drop)]
pub struct Symbols {
    pub truths: Items<Truth>,
    pub values: Items<Lin>,
}
