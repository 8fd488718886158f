//! Which predicates and functions change. One that isn't there changes never.
ghost use Rattle.std.specs.Prelude.{◌≡◌};
ghost use Rattle.pddl_task.specs.Task.{is_changing_pred, is_changing_func};

use pddl_task::Task;

/// Whether an effect of some action names the function.
pub fn changes_func(task: &Task, func: u32) -> bool
    ensures { result ≡ is_changing_func task.now.actions func }
{
    if func >= task.funcs() {
        return false;
    }
    task.changing_func(func)
}

/// Whether an effect of some action names the predicate.
pub fn changes_pred(task: &Task, pred: u32) -> bool
    ensures { result ≡ is_changing_pred task.now.actions pred }
{
    if pred >= task.preds() {
        return false;
    }
    task.changing_pred(pred)
}
