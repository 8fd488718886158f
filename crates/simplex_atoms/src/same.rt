//! Whether two expressions have the same terms.
ghost use Rattle.std.specs.Prelude.{◌≡◌, ◌↔◌, IsTrue};
ghost use Rattle.formula.specs.Equal.{same_terms};

use frac128::Frac;
use lin::Lin;
use std::cmp::Ordering;

fn same_fraction(x: &Frac, y: &Frac) -> bool
    ensures { IsTrue result ↔ (x.now ≡ y.now) }
{
    match x.cmp(y) {
        Ordering::Less => false,
        Ordering::Equal => true,
        Ordering::Greater => false,
    }
}

pub(crate) fn same_terms(a: &Lin, b: &Lin) -> bool
    ensures { result ≡ same_terms a.now.terms b.now.terms }
{
    let n = a.terms();
    if n != b.terms() {
        return false;
    }
    for i in 0..n {
        let (v, x) = a.term(i);
        let (w, y) = b.term(i);
        if v != w {
            return false;
        }
        if !same_fraction(&x, &y) {
            return false;
        }
    }
    true
}
