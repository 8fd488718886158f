//! The pairs of fractions that are timed. They come from a small generator that the C program has too.
ghost use Rattle.std.specs.Prelude.{◌≢◌, ◌<◌, ◌≤◌, ◌^◌, pos, ◌≤ℤ◌};

use frac128::Frac;
use std::alloc::{AllocError, Global};

#[derive(Clone, Copy, PartialEq, Eq)]
pub enum Kind {
    Whole,
    Small,
    Sixty,
}

#[derive(Clone, Copy)]
pub struct Pair {
    pub x: Frac,
    pub y: Frac,
}

pub const PAIRS: usize = 1000;

pub fn make_pairs(alloc: Global, kind: Kind) -> Result<Vec<Pair>, AllocError> {
    let mut pairs = Vec::with_capacity(alloc, PAIRS)?;
    let mut state = Generator(1);
    for _ in 0..PAIRS {
        let x = state.next_fraction(kind);
        let y = state.next_fraction(kind);
        pairs.push(Pair { x, y })?;
    }
    Ok(pairs)
}

#[derive(Drop)]
struct Generator(u64);

impl Generator {
    // Numerators are odd, so none is 0, and every other one is negative.
    fn next_fraction(&mut self, kind: Kind) -> Frac {
        let (size, den) = match kind {
            Kind::Whole => (self.next_bits() >> 10, 0),
            Kind::Small => (self.next_bits() >> 20, self.next_bits() >> 20),
            Kind::Sixty => (self.next_wide(), self.next_wide()),
        };
        let size = i128::from(size | 1);
        let num = if self.next_bits() % 2 == 0 {
            -size
        } else {
            size
        };
        Frac::ratio(num, i128::from(den) + 1)
    }

    fn next_wide(&mut self) -> u64 {
        self.next_bits() << 30 | self.next_bits()
    }

    // The next 30 bits.
    fn next_bits(&mut self) -> u64
        ensures { result < 2 ^ 30 }
    {
        self.0 = self
            .0
            .wrapping_mul(6_364_136_223_846_793_005)
            .wrapping_add(1_442_695_040_888_963_407);
        self.0 >> 34
    }
}
