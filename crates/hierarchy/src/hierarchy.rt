//! The hierarchy, and what it answers. Each type leads, parent by parent, into a circle: the root's own has one type.
//! For each type there is a number of its circle, its depth below it, and a jump to some type above it, so that a climb
//! to a given depth takes steps in the order of the depth's logarithm. Begin with `below`.
ghost use Rattle.std.specs.Prelude.{◌≡◌, ◌<◌, ◌^◌, length, IfOk};
ghost use Rattle.hierarchy.specs.Hierarchy.{parent_of, IsHierarchy, is_below, is_own_ancestor};

use crate::settling::settle_all;
use std::alloc::{AllocError, Global};
use std::marker::Model;

/// Contracts see the list that has for each type the one above it.
#[derive(Debug, Drop)]
pub struct Hierarchy {
    parents: Vec<u32>,
    /// How far a type is below its circle, 0 on it.
    depths: Vec<u32>,
    /// A number for the circle, the same for all types that lead into it.
    circles: Vec<u32>,
    /// A type above this one.
    jumps: Vec<u32>,
}

impl Model for Hierarchy {
    ghost use Rattle.std.specs.Prelude.{List, ℕ};
    ghost use Rattle.hierarchy.specs.inside.Entries.{IsIndexed};

    ghost Value = { List ℕ };

    ghost view = { λ h. h.parents.items };

    ghost invariant = { λ h. IsIndexed h.parents.items h.depths.items h.circles.items h.jumps.items };
}

impl Hierarchy {
    /// The types of which each has the one above it that stands at its number. It takes time in proportion to their number.
    pub fn new(alloc: Global, parents: Vec<u32>) -> Result<Hierarchy, AllocError>
        requires hierarchy { IsHierarchy parents.items }
        requires few { length parents.items < 2 ^ 32 }
        ensures { IfOk result (λ h. h ≡ parents.items) }
    {
        let count = parents.len();
        let mut depths = vec![in alloc; 0; count]?;
        let mut circles = vec![in alloc; u32::MAX; count]?;
        let mut jumps = vec![in alloc; 0; count]?;
        let mut places = vec![in alloc; 0; count]?;
        settle_all(
            alloc,
            &parents,
            &mut depths,
            &mut circles,
            &mut jumps,
            &mut places,
        )?;
        Ok(Hierarchy {
            parents,
            depths,
            circles,
            jumps,
        })
    }

    /// How many types.
    pub fn len(&self) -> usize
        ensures value { result ≡ length self.now }
        ensures few { result < 2 ^ 32 }
        ensures hierarchy { IsHierarchy self.now }
    {
        self.parents.len()
    }

    /// The type above.
    pub fn parent(&self, t: u32) -> u32
        requires { t < length self.now }
        ensures value { result ≡ parent_of self.now t }
        ensures within { result < length self.now }
    {
        self.parents[t as usize]
    }

    /// Whether `t` is `u` or below it. Takes no memory, and steps in the order of the logarithm of the depth of `t`.
    pub fn below(&self, t: u32, u: u32) -> bool
        requires below { t < length self.now }
        requires above { u < length self.now }
        ensures { result ≡ is_below self.now t u }
    {
        let depth = self.depths[u as usize];
        if depth == 0 {
            return self.circles[t as usize] == self.circles[u as usize];
        }
        let mut at = t;
        'climb: while self.depths[at as usize] > depth {
            let jump = self.jumps[at as usize];
            at = if self.depths[jump as usize] >= depth {
                jump
            } else {
                self.parents[at as usize]
            };
        }
        at == u
    }

    /// Whether the type stands above itself: it is on a circle.
    pub fn is_own_ancestor(&self, t: u32) -> bool
        requires { t < length self.now }
        ensures { result ≡ is_own_ancestor self.now t }
    {
        self.depths[t as usize] == 0
    }
}
