//! How a plan is written. Begin with `write_plan`; `write_part` writes a single part, `write_call` an action with its arguments.
//!
//! The lines are made piece by piece in a text of their own, and then added in one piece or not at all.
ghost use Rattle.std.specs.Prelude.{◌≡◌, ◌<◌, ◌++◌, length, nat_lt, true, codes, OnOk, OnErr};
ghost use Rattle.std.specs.Fmt.{decimal};
ghost use Rattle.std.specs.List.{list_all};
ghost use Rattle.plan_form.specs.Printed.{IsPlanOf, is_call_of, is_part_of, action_name, object_name, arguments_text, call_text, part_text, plan_text};

use crate::plan::{Part, Plan};
use itoa::Buffer;
use pddl_task::{Instance, Task};
use std::alloc::AllocError;

fn put_action(task: &Task, action: u32, into: &mut Vec<u8>) -> Result<(), AllocError>
    requires { action < length task.now.actions }
    ensures { OnOk result (into.new.items ≡ into.old.items ++ action_name task.now action) }
{
    let name = task.actions()[action as usize].name.as_str();
    into.extend_from_slice(name.as_bytes())
}

fn put_argument(task: &Task, object: u32, into: &mut Vec<u8>) -> Result<(), AllocError>
    requires { object < length task.now.objects }
    ensures { OnOk result (into.new.items ≡ into.old.items ++ (codes " " ++ object_name task.now object)) }
{
    into.push(b' ')?;
    into.extend_from_slice(task.object_name(object).as_bytes())
}

fn put_arguments(task: &Task, args: &[u32], into: &mut Vec<u8>) -> Result<(), AllocError>
    requires { list_all (λ o. nat_lt o (length task.now.objects)) args.now ≡ true }
    ensures { OnOk result (into.new.items ≡ into.old.items ++ arguments_text task.now args.now) }
{
    for object in args {
        put_argument(task, *object, into)?;
    }
    Ok(())
}

fn put_call(task: &Task, by: &Instance, into: &mut Vec<u8>) -> Result<(), AllocError>
    requires { is_call_of task.now by.now ≡ true }
    ensures { OnOk result (into.new.items ≡ into.old.items ++ call_text task.now by.now) }
{
    into.push(b'(')?;
    put_action(task, by.action, into)?;
    put_arguments(task, by.args.as_slice(), into)?;
    into.extend_from_slice(b")")
}

fn put_part(task: &Task, part: &Part, into: &mut Vec<u8>) -> Result<(), AllocError>
    requires { is_part_of task.now part.now ≡ true }
    ensures { OnOk result (into.new.items ≡ into.old.items ++ part_text task.now part.now) }
{
    let mut buffer = Buffer::new();
    into.extend_from_slice(buffer.format(part.count).as_bytes())?;
    into.push(b' ')?;
    put_call(task, &part.by, into)?;
    into.extend_from_slice(b"\n")
}

#[tactic(auto, unfolding(crate::specs::Printed::plan_text))]
fn put_parts(task: &Task, parts: &[Part], into: &mut Vec<u8>) -> Result<(), AllocError>
    requires { IsPlanOf task.now parts.now }
    ensures { OnOk result (into.new.items ≡ into.old.items ++ plan_text task.now parts.now) }
{
    for part in parts {
        put_part(task, part, into)?;
    }
    Ok(())
}

/// Adds an action with its arguments, `(NAME ARG ..)`.
pub fn write_call(task: &Task, by: &Instance, into: &mut Vec<u8>) -> Result<(), AllocError>
    requires { is_call_of task.now by.now ≡ true }
    ensures ok { OnOk result (into.new.items ≡ into.old.items ++ call_text task.now by.now) }
    ensures err { OnErr result (into.new.items ≡ into.old.items) }
{
    let mut call = Vec::new(*into.allocator());
    put_call(task, by, &mut call)?;
    into.extend_from_slice(call.as_slice())
}

/// Adds the line of a part: `COUNT (NAME ARG ..)`.
pub fn write_part(task: &Task, part: &Part, into: &mut Vec<u8>) -> Result<(), AllocError>
    requires { is_part_of task.now part.now ≡ true }
    ensures ok { OnOk result (into.new.items ≡ into.old.items ++ part_text task.now part.now) }
    ensures err { OnErr result (into.new.items ≡ into.old.items) }
{
    let mut line = Vec::new(*into.allocator());
    put_part(task, part, &mut line)?;
    into.extend_from_slice(line.as_slice())
}

/// Adds the lines of a plan, one for each part.
pub fn write_plan(task: &Task, plan: &Plan, into: &mut Vec<u8>) -> Result<(), AllocError>
    requires { IsPlanOf task.now plan.now }
    ensures ok { OnOk result (into.new.items ≡ into.old.items ++ plan_text task.now plan.now) }
    ensures err { OnErr result (into.new.items ≡ into.old.items) }
{
    let mut lines = Vec::new(*into.allocator());
    put_parts(task, plan.parts(), &mut lines)?;
    into.extend_from_slice(lines.as_slice())
}
