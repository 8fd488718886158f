//! Faults of declared names. Each has no word, since its place says which name is at fault.
ghost use Rattle.std.specs.Prelude.{◌≡◌, Some};
ghost use Rattle.pddl_form.specs.Faults.{first_with};
ghost use Rattle.pddl_form.specs.Gather.{option_both};
ghost use Rattle.pddl_form.specs.Sections.{second};
ghost use Rattle.typing_uses.specs.Scope.{again};
ghost use Rattle.typing_names.specs.Problem.{other_domain};

use pddl_form::FirstFault;
use std::alloc::Global;
use typing_uses::note;

/// A name is declared a second time.
pub fn note_again(alloc: Global, place: u32, faults: &mut FirstFault)
    ensures { faults.new ≡ Some (first_with faults.old (again place)) }
{
    note(alloc, 7, place, faults);
}

/// A problem names another domain.
pub fn note_other_domain(alloc: Global, place: u32, faults: &mut FirstFault)
    ensures { faults.new ≡ Some (first_with faults.old (other_domain place)) }
{
    note(alloc, 13, place, faults);
}

/// What was made, where a test found no fault.
pub fn beside<T: Drop>(test: Option<()>, made: Option<T>) -> Option<T>
    ensures { result ≡ option_both second test made }
{
    match test {
        Some(()) => made,
        None => None,
    }
}
