//! Items of a problem's initial state, with numbers for names.
use frac128::Frac;
use sqlite_items::Items;

/// An atom with its sign, or the value of a function, each with the place of its first byte.
#[derive(Debug, Drop)]
pub enum Item {
    Atom {
        place: u32,
        pos: bool,
        pred: u32,
        args: Items<u32>,
    },
    Value {
        place: u32,
        func: u32,
        args: Items<u32>,
        amount: Frac,
    },
}
