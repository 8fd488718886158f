//! The names of a task's actions and objects, by tables. Begin with `NameTables`.
ghost use Rattle.std.specs.Prelude.{map};
ghost use Rattle.plan_text.specs.inside.Numbering.{IsNumbering};

use crate::numbers::{Numbers, number_actions, number_objects};
use pddl_task::Task;
use std::alloc::{AllocError, Global};

/// The tables of a task.
#[derive(Drop)]
pub(crate) struct NameTables<'a> {
    task: &'a Task,
    actions: Numbers,
    objects: Numbers,
    ghost are_actions: { IsNumbering (map (λ a. a.name) task.now.actions) actions },
    ghost are_objects: { IsNumbering (map (λ o. o.name) task.now.objects) objects },
}

impl<'a> NameTables<'a> {
    ghost use Rattle.std.specs.Prelude.{◌≡◌, ◌≤◌, length, IfOk};
    ghost use Rattle.name_table.specs.NameTable.{number_in};
    ghost use Rattle.plan_text.specs.inside.Tables.{names_in};

    pub(crate) fn new(alloc: Global, task: &'a Task) -> Result<NameTables<'a>, AllocError>
        requires { length task.now.actions ≤ 4294967295 }
        ensures { IfOk result (λ tables. tables.task.now ≡ task.now) }
    {
        let actions = number_actions(alloc, task.actions())?;
        let objects = number_objects(alloc, task)?;
        Ok(NameTables {
            task,
            actions,
            objects,
        })
    }

    pub(crate) fn find_action(&self, name: &str) -> Option<u32>
        ensures { result ≡ number_in (names_in self.now).actions name.now }
    {
        self.actions.find(name)
    }

    pub(crate) fn find_object(&self, name: &str) -> Option<u32>
        ensures { result ≡ number_in (names_in self.now).objects name.now }
    {
        self.objects.find(name)
    }
}
