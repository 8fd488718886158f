//! `Grounded`: a ground task that knows where it is from.
ghost use Rattle.std.specs.Prelude.{◌≡◌, ◌<◌, length, slice_get, Some};
ghost use Rattle.ground.specs.Parts.{IsMatched};

use crate::function::GroundFunc;
use pddl_task::Instance;
use sqlite_items::Items;
use std::marker::Model;
use task_core::GroundTask;

/// The ground task of a task, with the instance that each of its actions is, and what each function number stands for.
#[derive(Debug, Drop)]
pub struct Grounded {
    pub(crate) task: GroundTask,
    pub(crate) instances: Items<Instance>,
    pub(crate) funcs: Items<GroundFunc>,
}

impl Model for Grounded {
    ghost use Rattle.ground.specs.Parts.{GroundedParts};

    ghost Value = { GroundedParts };

    ghost view = { λ g. record { task = g.task; instances = g.instances; funcs = g.funcs } };

    ghost use Rattle.ground.specs.Parts.{IsMatched};

    ghost invariant = { λ g. IsMatched (record { task = g.task; instances = g.instances; funcs = g.funcs }) };
}

impl Grounded {
    /// The ground task. It has an instance for each action, and a ground function for each number.
    pub fn task(&self) -> &GroundTask
        ensures value { result.now ≡ self.now.task }
        ensures matched { IsMatched self.now }
    {
        &self.task
    }

    /// The instance that the action with the number is.
    pub fn instance_of(&self, a: u32) -> &Instance
        requires { a < length self.now.instances }
        ensures { slice_get self.now.instances a ≡ Some result.now }
    {
        &self.instances.as_slice()[a as usize]
    }

    /// The ground function with the number.
    pub fn func_of(&self, f: u64) -> &GroundFunc
        requires { f < length self.now.funcs }
        ensures { slice_get self.now.funcs f ≡ Some result.now }
    {
        &self.funcs.as_slice()[f as usize]
    }
}
