//! The numbers of names, of which some may be there more than once: a name's number is its first place.
ghost use Rattle.std.specs.Prelude.{◌≡◌, ◌<◌, ◌≤◌, [], length, map, OnOk, IfOk};
ghost use Rattle.pddl_form.specs.Gather.{push};
ghost use Rattle.plan_text.specs.inside.Numbering.{place_in, IsNumbering};

use name_table::NameTable;
use pddl_task::{Action, Task};
use sqlite_items::Items;
use std::alloc::{AllocError, Global};

/// A table of names, with the first place of each.
#[derive(Drop)]
pub(crate) struct Numbers {
    names: NameTable,
    firsts: Items<u32>,
}

impl Numbers {
    ghost use Rattle.std.specs.Prelude.{List, ℕ};

    fn new(alloc: Global) -> Numbers
        ensures { IsNumbering [] result }
    {
        Numbers {
            names: NameTable::new(alloc),
            firsts: Items::new(alloc),
        }
    }

    /// The number of a name.
    pub(crate) fn find(&self, name: &str) -> Option<u32>
        ensures { result ≡ place_in self.now name.now }
    {
        let known = self.names.find(name)?;
        self.firsts.get(known as usize).copied()
    }

    /// The next name, with its place.
    fn add(&mut self, place: u32, name: &str) -> Result<(), AllocError>
        requires room { length self.old.names < 4294967295 }
        ensures { OnOk result ((names : List (List ℕ)) → place ≡ length names → IsNumbering names self.old → IsNumbering (push names name.now) self.new) }
    {
        if self.names.add(name)? {
            self.firsts.push(place)?;
        }
        Ok(())
    }
}

/// The numbers of actions.
pub(crate) fn number_actions(alloc: Global, actions: &[Action]) -> Result<Numbers, AllocError>
    requires { length actions.now ≤ 4294967295 }
    ensures { IfOk result (IsNumbering (map (λ a. a.name) actions.now)) }
{
    let mut numbers = Numbers::new(alloc);
    for (place, action) in actions.iter().enumerate() {
        numbers.add(place as u32, action.name.as_str())?;
    }
    Ok(numbers)
}

/// The numbers of objects.
pub(crate) fn number_objects(alloc: Global, task: &Task) -> Result<Numbers, AllocError>
    ensures { IfOk result (IsNumbering (map (λ o. o.name) task.now.objects)) }
{
    let mut numbers = Numbers::new(alloc);
    for place in 0..task.objects() {
        numbers.add(place, task.object_name(place))?;
    }
    Ok(numbers)
}
