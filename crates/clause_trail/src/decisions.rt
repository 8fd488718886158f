//! The decisions of a trail.
ghost use Rattle.std.specs.Prelude.{◌≡◌, ◌<◌, ◌≤◌, ℕ, length, MatchOption, Some, take, None};
ghost use Rattle.clause_trail.specs.Decisions.{HasDecisionAt, IsLastDecision};

use crate::trail::{Entry, Trail};

/// The place of the first decision, or the trail's length.
pub fn first_decision(entries: &[Entry]) -> usize
    ensures before { (i : ℕ) → i < result → HasDecisionAt entries.now i → ⊥ }
    ensures here { result < length entries.now → HasDecisionAt entries.now result }
{
    for (i, entry) in entries.iter().enumerate() {
        match entry.reason {
            None => return i,
            Some(_) => {}
        }
    }
    entries.len()
}

/// The place of the last decision.
pub fn last_decision(entries: &[Entry]) -> Option<usize>
    ensures { MatchOption result ((i : ℕ) → HasDecisionAt entries.now i → ⊥) (IsLastDecision entries.now) }
{
    let mut last = None;
    for (i, entry) in entries.iter().enumerate() {
        match entry.reason {
            None => last = Some(i),
            Some(_) => {}
        }
    }
    last
}

/// Cuts the trail down to this length.
pub fn cut(trail: &mut Trail, n: usize)
    requires { n ≤ length trail.old.entries }
    ensures entries { trail.new.entries ≡ take n trail.old.entries }
    ensures booleans { trail.new.booleans ≡ trail.old.booleans }
{
    while trail.entries().len() > n {
        let Some(_entry) = trail.pop() else {
            return;
        };
    }
}
