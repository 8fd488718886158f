//! How an expression is compared with 0.

/// `<= 0`, `< 0` or `= 0`.
#[derive(Clone, Copy, Debug, PartialEq, Eq)]
pub enum Cmp {
    Le,
    Lt,
    Eq,
}
