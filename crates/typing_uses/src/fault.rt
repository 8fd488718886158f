//! Faults of names. Each has no word, since its place says which name is at fault.
ghost use Rattle.std.specs.Prelude.{◌≡◌, [], Some};
ghost use Rattle.pddl_form.specs.Faults.{first_with};
ghost use Rattle.typing_uses.specs.Scope.{unknown};

use pddl_form::{Fault, FirstFault};
use sexpr::Text;
use std::alloc::Global;

/// A fault of this kind.
pub fn note(alloc: Global, kind: u8, place: u32, faults: &mut FirstFault)
    ensures { faults.new ≡ Some (first_with faults.old (record { kind = kind; place = place; word = [] })) }
{
    faults.note(Fault {
        kind,
        place,
        word: Text::from_string(String::new(alloc)),
    });
}

/// A word in use isn't declared.
pub fn note_unknown(alloc: Global, place: u32, faults: &mut FirstFault)
    ensures { faults.new ≡ Some (first_with faults.old (unknown place)) }
{
    note(alloc, 6, place, faults);
}
