//! Values with a small part: `a + b*d` for a positive d as small as is wanted.
ghost use Rattle.std.specs.Prelude.{◌↔◌, IsTrue};
ghost use Rattle.simplex_law.specs.Pairs.{◌<ₚ◌};

use frac128::Frac;
use std::cmp::Ordering;

/// `main + small*d`.
#[derive(Clone, Copy, PartialEq, Eq, Debug)]
pub struct Pair {
    pub main: Frac,
    pub small: Frac,
}

impl Pair {
    /// By the main part, then by the small one.
    pub fn is_below(&self, y: &Pair) -> bool
        ensures { IsTrue result ↔ (self.now <ₚ y.now) }
    {
        match self.main.cmp(&y.main) {
            Ordering::Less => true,
            Ordering::Equal => match self.small.cmp(&y.small) {
                Ordering::Less => true,
                Ordering::Equal => false,
                Ordering::Greater => false,
            },
            Ordering::Greater => false,
        }
    }
}
