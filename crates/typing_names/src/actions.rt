//! Actions with numbers for names. Begin with `resolve_action`: its conditions and effects see its parameters.
ghost use Rattle.std.specs.Prelude.{◌≡◌, true};
ghost use Rattle.std.specs.List.{list_all};
ghost use Rattle.pddl_domain.specs.Grammar.{is_action};
ghost use Rattle.pddl_form.specs.Judged.{both};
ghost use Rattle.pddl_form.specs.Parts.{pair};
ghost use Rattle.pddl_form.specs.Reading.{Reads};
ghost use Rattle.typing_uses.specs.Names.{scope_of};
ghost use Rattle.typing_uses.specs.Expressions.{conditions_named, effects_named};
ghost use Rattle.typing_names.specs.Domain as domain;

use crate::declared::{copy_text, resolve_params};
use name_table::NameTable;
use pddl_domain::ActionAst;
use pddl_form::{FirstFault, add, pair};
use pddl_task::{Action, Cond, Effect};
use sqlite_items::Items;
use std::alloc::{AllocError, Global};
use typing_uses::{Names, resolve_conditions, resolve_effects};

/// The types that the parameters allow, with the condition and the effect.
type ActionParts = ((Items<Items<u32>>, Items<Cond>), Items<Effect>);

fn resolve_action_parts(
    alloc: Global,
    names: &Names,
    action: &ActionAst,
    faults: &mut FirstFault,
) -> Result<Option<ActionParts>, AllocError>
    requires { is_action action.now ≡ true }
    ensures { Reads (both pair (both pair (domain.parameters_named (scope_of names.now).types action.now.params) (conditions_named (domain.within (scope_of names.now) action.now.params) action.now.conds)) (effects_named (domain.within (scope_of names.now) action.now.params) action.now.effs)) faults.old faults.new result }
{
    let mut table = NameTable::new(alloc);
    let params = resolve_params(
        alloc,
        names.types,
        &mut table,
        action.params.as_slice(),
        faults,
    )?;
    let inside = Names {
        types: names.types,
        objects: names.objects,
        preds: names.preds,
        funcs: names.funcs,
        params: &table,
    };
    let conds = resolve_conditions(alloc, &inside, action.conds.as_slice(), faults)?;
    let effs = resolve_effects(alloc, &inside, action.effs.as_slice(), faults)?;
    Ok(pair(pair(params, conds), effs))
}

fn resolve_action(
    alloc: Global,
    names: &Names,
    action: &ActionAst,
    faults: &mut FirstFault,
) -> Result<Option<Action>, AllocError>
    requires { is_action action.now ≡ true }
    ensures { Reads (domain.action_named (scope_of names.now) action.now) faults.old faults.new result }
{
    let Some((front, effs)) = resolve_action_parts(alloc, names, action, faults)? else {
        return Ok(None);
    };
    let (params, conds) = front;
    let name = copy_text(alloc, &action.name.text)?;
    Ok(Some(Action {
        name,
        params,
        conds,
        effs,
    }))
}

pub fn resolve_actions(
    alloc: Global,
    names: &Names,
    actions: &[ActionAst],
    faults: &mut FirstFault,
) -> Result<Option<Items<Action>>, AllocError>
    requires { list_all is_action actions.now ≡ true }
    ensures { Reads (domain.actions_named (scope_of names.now) actions.now) faults.old faults.new result }
{
    let mut found = Some(Items::new(alloc));
    for action in actions {
        let one = resolve_action(alloc, names, action, faults)?;
        add(&mut found, one)?;
    }
    Ok(found)
}
