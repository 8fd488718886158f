//! Which actions may be repeated at once.
ghost use Rattle.std.specs.Prelude.{◌≡◌};
ghost use Rattle.std.specs.List.{list_all};
ghost use Rattle.task_core.specs.Step.{keeps, is_rollable};

use crate::action::GAction;

/// Whether a step leaves the literal as it is.
fn keeps_literal(a: &GAction, atom: u64, truth: bool) -> bool
    ensures { result ≡ keeps a.now (atom, truth) }
{
    let changes = if truth { &a.dels } else { &a.adds };
    !changes.as_slice().contains(&atom)
}

/// Whether a step leaves all literals of the action as they are.
fn keeps_literals(a: &GAction) -> bool
    ensures { result ≡ list_all (keeps a.now) a.now.lits }
{
    a.lits
        .as_slice()
        .iter()
        .all(|literal| keeps_literal(a, literal.0, literal.1))
}

/// Whether repeating the action adds an amount each time and takes none of its literals away: it gives no new values, it
/// has an increment, no atom that has to be true is deleted, and no atom that has to be false is added.
pub fn rollable(a: &GAction) -> bool
    ensures { result ≡ is_rollable a.now }
{
    a.sets.is_empty() && !a.incs.is_empty() && keeps_literals(a)
}
