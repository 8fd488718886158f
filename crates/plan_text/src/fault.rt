//! The faults of a plan's text.
ghost use Rattle.std.specs.Prelude.{◌≡◌, [], Some};
ghost use Rattle.pddl_form.specs.Faults.{first_with};
ghost use Rattle.plan_text.specs.PlanText.{malformed, miscounted, unknown};

use pddl_form::{Fault, FirstFault};
use sexpr::Text;
use std::alloc::Global;

fn wordless(alloc: Global, kind: u8, place: u32) -> Fault
    ensures kind { result.kind ≡ kind }
    ensures place { result.place ≡ place }
    ensures word { result.word ≡ [] }
{
    Fault {
        kind,
        place,
        word: Text::from_string(String::new(alloc)),
    }
}

/// A line is of no form.
pub(crate) fn note_malformed(alloc: Global, place: u32, faults: &mut FirstFault)
    ensures { faults.new ≡ Some (first_with faults.old (malformed place)) }
{
    faults.note(wordless(alloc, 17, place));
}

/// A count has a zero in front, or is past 2^127 - 1.
pub(crate) fn note_miscounted(alloc: Global, place: u32, faults: &mut FirstFault)
    ensures { faults.new ≡ Some (first_with faults.old (miscounted place)) }
{
    faults.note(wordless(alloc, 18, place));
}

/// A name isn't one of the task.
pub(crate) fn note_unknown(alloc: Global, place: u32, faults: &mut FirstFault)
    ensures { faults.new ≡ Some (first_with faults.old (unknown place)) }
{
    faults.note(wordless(alloc, 19, place));
}
