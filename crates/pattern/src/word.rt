//! Words: what counts of places spell. Begin with `word_of`.
ghost use Rattle.std.specs.Prelude.{◌≡◌, ◌*◌, ◌++◌, ◌≤ℤ◌, ℕ, length, pos, IfOk, OnOk};
ghost use Rattle.std.specs.List.{AllByRecursion};
ghost use Rattle.rational.specs.Fraction.{whole};
ghost use Rattle.pattern.specs.Word.{copies, part_of, parts_of};

use crate::pattern::Pattern;
use frac128::Frac;
use sqlite_items::Items;
use std::alloc::{AllocError, Global};

/// Action numbers, each with a count above 0.
#[derive(Debug, Drop)]
pub struct Word {
    pub parts: Items<(u128, u32)>,
}

fn push_part(parts: &mut Vec<(u128, u32)>, count: &Frac, action: u32) -> Result<(), AllocError>
    requires { pos 0 ≤ℤ count.now.num }
    ensures { OnOk result (parts.new.items ≡ parts.old.items ++ part_of count.now action) }
{
    let times = count.num() as u128;
    if times != 0 {
        parts.push((times, action))?;
    }
    Ok(())
}

/// The counts above 0 with the actions of their places, in order. Count i stands at place i of the pattern written out so
/// many times that there is a place for each count. The counts are whole and not below 0, as many as places times copies.
pub fn word_of(alloc: Global, pattern: &Pattern, counts: &[Frac]) -> Result<Word, AllocError>
    requires copies { (n : ℕ) × (length counts.now ≡ n * length pattern.now) }
    requires counts { AllByRecursion (λ c. (k : ℕ) × (c ≡ whole (pos k))) counts.now }
    ensures { (n : ℕ) → length counts.now ≡ n * length pattern.now → IfOk result (λ w. w.parts ≡ parts_of (copies n pattern.now) counts.now) }
{
    let places = pattern.places();
    let mut parts = Vec::new(alloc);
    for (i, count) in counts.iter().enumerate() {
        push_part(&mut parts, count, places[i % places.len()])?;
    }
    Ok(Word {
        parts: Items::from_vec(parts),
    })
}
