//! The list of the basic variables: made once, and written again after a pivot.
ghost use Rattle.std.specs.Prelude.{◌≡◌, ◌<◌, ◌+◌, ◌++◌, ◌∷◌, [], ℕ, true, length, IfOk, OnOk, set, if◌then◌else◌};
ghost use Rattle.tableau.specs.inside.Basis.{numbers_of};

use std::alloc::{AllocError, Global};

// One more number, where it is basic.
fn note(list: &mut Vec<u64>, v: u64, basic: bool) -> Result<(), AllocError>
    ensures { OnOk result (list.new.items ≡ (if basic then (list.old.items ++ v ∷ []) else list.old.items)) }
{
    if basic {
        list.push(v)?;
    }
    Ok(())
}

/// The basic variables in rising order.
pub(crate) fn listed(alloc: Global, basic: &[bool]) -> Result<Vec<u64>, AllocError>
    ensures { IfOk result (λ v. v.items ≡ numbers_of basic.now) }
{
    let mut list = Vec::new(alloc);
    for v in 0..basic.len() {
        note(&mut list, v as u64, basic[v])?;
    }
    Ok(list)
}

// Writes a number at place k where it is basic, and says the next place.
fn put(into: &mut [u64], k: usize, v: u64, basic: bool) -> usize
    requires { basic ≡ true → k < length into.old }
    ensures place { result ≡ (if basic then (k + 1) else k) }
    ensures written { into.new ≡ (if basic then set into.old k v else into.old) }
{
    if basic {
        into[k] = v;
        return k + 1;
    }
    k
}

/// The same, over a list of as many numbers.
pub(crate) fn list_again(basic: &[bool], into: &mut [u64])
    requires { length (numbers_of basic.now) ≡ length into.old }
    ensures { into.new ≡ numbers_of basic.now }
{
    let mut k = 0;
    for v in 0..basic.len() {
        k = put(into, k, v as u64, basic[v]);
    }
}
