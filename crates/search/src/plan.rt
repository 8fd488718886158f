//! The plan that a point spells.
ghost use Rattle.std.specs.Prelude.{◌≡◌, ◌≤◌, ◌<◌, length, map, IfOk};
ghost use Rattle.formula.specs.Meets.{IsSolution};
ghost use Rattle.encode_laws.specs.Encoding.{copies, formula_of, counts_at};
ghost use Rattle.encode_laws.specs.Refusals.{operations_of, AllNamedFit};
ghost use Rattle.encode_laws.specs.Laws.{SpellsPlan};
ghost use Rattle.pattern.specs.Word.{parts_of};
ghost use Rattle.ground_laws.specs.Result.{task_from};
ghost use Rattle.ground_walk.specs.Walk.{kept_instances};
ghost use Rattle.ground.specs.Grounds.{IsGrounded};
ghost use Rattle.search.specs.inside.Opening.{IsOpened};
ghost use Rattle.search.specs.inside.Planning as planning;

use crate::instance::instance_of;
use crate::opening::Opened;
use encode::counts_of;
use encode_laws::laws::point_spells_plan;
use formula::Point;
use ground::Grounded;
use ground_plans::laws::ground_plan_is_plan;
use pattern::{Word, word_of};
use pddl_task::{Instance, Task};
use plan_form::{Part, Plan};
use sqlite_items::Items;
use std::alloc::{AllocError, Global};

fn copy_of(alloc: Global, by: &Instance) -> Result<Instance, AllocError>
    ensures { IfOk result (λ i. i ≡ by.now) }
{
    let args = Items::from_slice(alloc, by.args.as_slice())?;
    Ok(Instance {
        action: by.action,
        args,
    })
}

/// A ground action that is made so often.
fn part_of(
    alloc: Global,
    task: &Task,
    grounded: &Grounded,
    count: u128,
    action: u32,
) -> Result<Part, AllocError>
    requires grounded { IsGrounded task.now 1000000 grounded.now }
    requires within { action < length (kept_instances task.now) }
    ensures { IfOk result (λ p. p ≡ planning.part_in task.now (count, action)) }
{
    let by = copy_of(alloc, instance_of(task, grounded, action))?;
    Ok(Part { count, by })
}

/// The parts of a plan, in the order of the word.
fn parts_in(
    alloc: Global,
    task: &Task,
    grounded: &Grounded,
    word: &[(u128, u32)],
) -> Result<Vec<Part>, AllocError>
    requires grounded { IsGrounded task.now 1000000 grounded.now }
    requires kept { planning.AreKept task.now word.now }
    ensures { IfOk result (λ v. v.items ≡ map (planning.part_in task.now) word.now) }
{
    let mut parts = Vec::new(alloc);
    for (count, action) in word {
        parts.push(part_of(alloc, task, grounded, *count, *action)?)?;
    }
    Ok(parts)
}

/// The word that the counts at a point spell.
fn word_at(
    alloc: Global,
    task: &Task,
    opened: &Opened,
    n: u32,
    p: &Point,
) -> Result<Word, AllocError>
    requires opened { IsOpened task.now opened.now }
    requires copies { n ≤ 1000 }
    requires encoded { AllNamedFit (operations_of (task_from task.now) opened.now.pattern n) }
    requires spelled { SpellsPlan (task_from task.now) opened.now.pattern n p.now }
    ensures { IfOk result (λ w. w.parts ≡ parts_of (copies n opened.now.pattern) (counts_at (task_from task.now) opened.now.pattern n p.now)) }
{
    let _ = task;
    let counts = counts_of(alloc, opened.grounded.task(), &opened.pattern, n, p)?;
    word_of(alloc, &opened.pattern, counts.as_slice())
}

fn spells(task: &Task, opened: &Opened, n: u32, p: &Point)
    requires opened { IsOpened task.now opened.now }
    requires solution { IsSolution (formula_of (task_from task.now) opened.now.pattern n) p.now }
    ensures { SpellsPlan (task_from task.now) opened.now.pattern n p.now }
{
    point_spells_plan();
    let _ = task;
    let _ = opened;
    let _ = n;
    let _ = p;
}

/// The plan that a point spells, which meets the formula of n copies.
pub(crate) fn plan_at(
    alloc: Global,
    task: &Task,
    opened: &Opened,
    n: u32,
    p: &Point,
) -> Result<Plan, AllocError>
    requires opened { IsOpened task.now opened.now }
    requires copies { n ≤ 1000 }
    requires encoded { AllNamedFit (operations_of (task_from task.now) opened.now.pattern n) }
    requires solution { IsSolution (formula_of (task_from task.now) opened.now.pattern n) p.now }
    ensures { IfOk result (planning.IsPlanFound task.now opened.now.pattern n) }
{
    ground_plan_is_plan();
    task.well_formed();
    spells(task, opened, n, p);
    let word = word_at(alloc, task, opened, n, p)?;
    let parts = parts_in(alloc, task, &opened.grounded, word.parts.as_slice())?;
    Ok(Plan::new(Items::from_vec(parts)))
}
