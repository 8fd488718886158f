//! Drafts become ground actions, when all atoms are known: that a function has a value is an atom behind the others.
ghost use Rattle.std.specs.Prelude.{◌≡◌, ◌++◌, ℕ, true, map, IfOk, OnOk};
ghost use Rattle.ground.specs.inside.Concluding as concluded;
ghost use Rattle.ground.specs.inside.Concluding.{finished_at};

use ground_draft::Draft;
use sqlite_items::Items;
use std::alloc::{AllocError, Global};
use task_core::GAction;

/// For each function, by number, the atom that says whether it has a value, if it needs one; and the number behind all atoms.
#[derive(Clone, Copy)]
pub(crate) struct Marks<'a> {
    pub(crate) atoms: &'a [u64],
    pub(crate) last: u64,
}

fn mark(marks: &Marks, f: u64) -> u64
    ensures { result ≡ concluded.mark_at marks.now.atoms.now marks.now.last f }
{
    match marks.atoms.get(f as usize) {
        Some(atom) => *atom,
        None => marks.last,
    }
}

/// The functions have values: a literal more for each.
fn ask(marks: &Marks, reads: &[u64], lits: &mut Items<(u64, bool)>) -> Result<(), AllocError>
    ensures { OnOk result (lits.new ≡ lits.old ++ map (λ (f : ℕ). (concluded.mark_at marks.now.atoms.now marks.now.last f, true)) reads.now) }
{
    for f in reads {
        lits.push((mark(marks, *f), true))?;
    }
    Ok(())
}

/// The functions get values: an added atom more for each.
fn add(marks: &Marks, assigns: &[u64], adds: &mut Items<u64>) -> Result<(), AllocError>
    ensures { OnOk result (adds.new ≡ adds.old ++ map (concluded.mark_at marks.now.atoms.now marks.now.last) assigns.now) }
{
    for f in assigns {
        adds.push(mark(marks, *f))?;
    }
    Ok(())
}

/// One ground action.
pub(crate) fn finish(marks: &Marks, draft: Draft) -> Result<GAction, AllocError>
    ensures { IfOk result (λ a. a ≡ finished_at (concluded.mark_at marks.now.atoms.now marks.now.last) draft) }
{
    let Draft {
        mut action,
        reads,
        assigns,
    } = draft;
    ask(marks, reads.as_slice(), &mut action.lits)?;
    add(marks, assigns.as_slice(), &mut action.adds)?;
    Ok(action)
}

/// The ground actions, in their order.
pub(crate) fn finish_all(
    alloc: Global,
    marks: &Marks,
    mut drafts: Items<Draft>,
) -> Result<Vec<GAction>, AllocError>
    ensures { IfOk result (λ actions. actions.items ≡ map (finished_at (concluded.mark_at marks.now.atoms.now marks.now.last)) drafts) }
{
    let mut actions = Vec::with_capacity(alloc, drafts.len())?;
    'drafts: while let Some(draft) = drafts.pop() {
        actions.push(finish(marks, draft)?)?;
    }
    actions.reverse();
    Ok(actions)
}
