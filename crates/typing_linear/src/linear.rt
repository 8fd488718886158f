//! Linearity: of a product's factors one at most reads a changing function, and of a quotient's parts only the dividend
//! may read one.
//!
//! A function is changing where it is the target of an effect of some action. Begin with `Changing`, which tells those by name, and
//! then `read_expression`, which calls itself on the arguments of an operation.
ghost use Rattle.std.specs.Prelude.{◌≡◌, ◌&&◌, ◌||◌, ◌==◌, List, [], ◌∷◌, false, map, bytes_eq, codes, IfOk, OnOk};
ghost use Rattle.std.specs.List.{list_any, flat_map};
ghost use Rattle.kw_table.specs.Table.{Rises};
ghost use Rattle.pddl_form.specs.Faults.{first_with, least};
ghost use Rattle.typing_linear.specs.Linear as linear;
ghost use Rattle.typing_linear.specs.Reads.{AreAlso, change_faults, operation_faults, readings_of};

use kw_table::{Table, rows};
use name_table::NameTable;
use pddl_condition::{CondAst, ExprAst};
use pddl_domain::{ActionAst, EffAst};
use pddl_form::{FirstFault, Spot};
use std::alloc::{AllocError, Global};
use std::marker::Model;
use typing_names::add_name;
use typing_uses::note;

fn add_function(names: &mut NameTable, name: &str) -> Result<(), AllocError>
    ensures { OnOk result (AreAlso names.old names.new (bytes_eq name.now)) }
{
    add_name(names, name)?;
    Ok(())
}

/// The function that an effect changes.
fn add_changed(names: &mut NameTable, effect: &EffAst) -> Result<(), AllocError>
    ensures { OnOk result (AreAlso names.old names.new (λ func. linear.changes func effect.now)) }
{
    match effect {
        EffAst::Put { .. } => Ok(()),
        EffAst::Change { name, .. } => add_function(names, name.text.as_str()),
    }
}

fn add_all_changed(names: &mut NameTable, effects: &[EffAst]) -> Result<(), AllocError>
    ensures { OnOk result (AreAlso names.old names.new (λ func. list_any (linear.changes func) effects.now)) }
{
    for effect in effects {
        add_changed(names, effect)?;
    }
    Ok(())
}

/// The functions that the effects of some actions change. Contracts see the actions.
#[derive(Debug, Drop)]
pub struct Changing<'a> {
    actions: &'a [ActionAst],
    names: NameTable,
}

impl<'a> Model for Changing<'a> {
    ghost use Rattle.std.specs.Prelude.{List};
    ghost use Rattle.std.specs.Coded.{codes};
    ghost use Rattle.pddl_condition.specs.contracts.expression.ExprAst as expression;
    ghost use Rattle.pddl_domain.specs.declared.action.ActionAst.{ActionAst};
    ghost use Rattle.typing_linear.specs.Reads.{AreChanging};

    ghost Value = { List ActionAst };

    ghost coded = { Prim.hlevel (codes, expression.the_row.coded) };

    ghost view = { λ c. c.actions.now };

    ghost invariant = { λ c. AreChanging c.actions.now c.names };
}

impl<'a> Changing<'a> {
    pub fn new(alloc: Global, actions: &'a [ActionAst]) -> Result<Changing<'a>, AllocError>
        ensures { IfOk result (λ changing. changing ≡ actions.now) }
    {
        let mut names = NameTable::new(alloc);
        for action in actions {
            add_all_changed(&mut names, action.effs.as_slice())?;
        }
        Ok(Changing { actions, names })
    }

    pub fn has(&self, name: &str) -> bool
        ensures { result ≡ linear.is_changing self.now name.now }
    {
        self.names.find(name).is_some()
    }
}

fn note_nonlinear(alloc: Global, place: u32, faults: &mut FirstFault)
    ensures { faults.new ≡ least faults.old (linear.not_linear place ∷ []) }
{
    note(alloc, 11, place, faults);
}

/// Which arguments of an operation read a changing function: any, any two, and the second.
#[derive(Clone, Copy, Debug)]
struct Reads {
    any: bool,
    two: bool,
    second: bool,
}

impl Reads {
    fn none() -> Reads
        ensures { result ≡ record { any = false; two = false; second = false } }
    {
        Reads {
            any: false,
            two: false,
            second: false,
        }
    }

    /// With one more argument, which stands at a place.
    fn with(self, place: usize, reads: bool) -> Reads
        ensures any { result.any ≡ (self.any || reads) }
        ensures two { result.two ≡ (self.two || (self.any && reads)) }
        ensures second { result.second ≡ (self.second || (place == 1 && reads)) }
    {
        Reads {
            any: self.any || reads,
            two: self.two || self.any && reads,
            second: self.second || place == 1 && reads,
        }
    }
}

const OPERATORS: Table<2> = Table { words: ["*", "/"] };

/// The operators stand in byte order.
pub fn operators_rise()
    ensures { Rises (map (λ w. w.now) OPERATORS.words) }
{}

/// Whether an operation with this operator isn't linear.
fn is_nonlinear(operator: &str, reads: Reads) -> bool
    ensures { result ≡ ((bytes_eq operator.now (codes "*") && reads.two) || (bytes_eq operator.now (codes "/") && reads.second)) }
{
    let table = &OPERATORS;
    rows! {
        table, operator.as_bytes();
        "*" => reads.two,
        "/" => reads.second;
        else => false
    }
}

const SCALES: Table<2> = Table {
    words: ["scale-down", "scale-up"],
};

/// The operators that scale stand in byte order.
pub fn scales_rise()
    ensures { Rises (map (λ w. w.now) SCALES.words) }
{}

fn scales(operator: &str) -> bool
    ensures { result ≡ linear.scales operator.now }
{
    SCALES.find(operator.as_bytes()).is_some()
}

/// The arguments of an operation, one behind another.
#[cycle(linear)]
fn read_arguments(
    alloc: Global,
    changing: &Changing<'_>,
    args: &[ExprAst],
    faults: &mut FirstFault,
) -> Reads
    ensures any { result.any ≡ list_any (λ r. r.reads) (readings_of changing.now args.now) }
    ensures two { result.two ≡ linear.is_nonlinear_product (readings_of changing.now args.now) }
    ensures second { result.second ≡ linear.is_nonlinear_quotient (readings_of changing.now args.now) }
    ensures faults { faults.new ≡ least faults.old (flat_map (λ r. r.faults) (readings_of changing.now args.now)) }
{
    let mut reads = Reads::none();
    for (at, arg) in args.iter().enumerate() {
        let one = read_expression(alloc, changing, arg, faults);
        reads = reads.with(at, one);
    }
    reads
}

#[cycle(linear)]
fn read_operation(
    alloc: Global,
    changing: &Changing<'_>,
    op: &Spot,
    args: &[ExprAst],
    faults: &mut FirstFault,
) -> bool
    ensures reads { result ≡ list_any (λ r. r.reads) (readings_of changing.now args.now) }
    ensures faults { faults.new ≡ least faults.old (operation_faults op.now (readings_of changing.now args.now)) }
{
    let reads = read_arguments(alloc, changing, args, faults);
    if is_nonlinear(op.text.as_str(), reads) {
        note_nonlinear(alloc, op.place, faults);
    }
    reads.any
}

/// Whether an expression reads a changing function; notes its faults.
#[cycle(linear)]
pub fn read_expression(
    alloc: Global,
    changing: &Changing<'_>,
    expr: &ExprAst,
    faults: &mut FirstFault,
) -> bool
    ensures reads { result ≡ (linear.reading_of changing.now expr.now).reads }
    ensures faults { faults.new ≡ least faults.old (linear.reading_of changing.now expr.now).faults }
{
    match expr {
        ExprAst::Num(_) => false,
        ExprAst::Call { name, .. } => changing.has(name.text.as_str()),
        ExprAst::Op { op, args } => read_operation(alloc, changing, op, args.as_slice(), faults),
    }
}

#[tactic(auto, using(crate::proofs::Noted::both_noted))]
fn judge_condition(
    alloc: Global,
    changing: &Changing<'_>,
    condition: &CondAst,
    faults: &mut FirstFault,
)
    ensures { faults.new ≡ least faults.old (linear.condition_nonlinearities changing.now condition.now) }
{
    match condition {
        CondAst::Lit { .. } | CondAst::Same { .. } => {}
        CondAst::Compare { left, right, .. } => {
            read_expression(alloc, changing, left, faults);
            read_expression(alloc, changing, right, faults);
        }
    }
}

fn judge_conditions(
    alloc: Global,
    changing: &Changing<'_>,
    conditions: &[CondAst],
    faults: &mut FirstFault,
)
    ensures { faults.new ≡ least faults.old (flat_map (linear.condition_nonlinearities changing.now) conditions.now) }
{
    for condition in conditions {
        judge_condition(alloc, changing, condition, faults);
    }
}

/// A change, of which the operator and the amount are given.
fn judge_change(
    alloc: Global,
    changing: &Changing<'_>,
    op: &Spot,
    by: &ExprAst,
    faults: &mut FirstFault,
)
    ensures { faults.new ≡ least faults.old (change_faults changing.now op.now by.now) }
{
    let reads = read_expression(alloc, changing, by, faults);
    if reads && scales(op.text.as_str()) {
        note_nonlinear(alloc, op.place, faults);
    }
}

fn judge_effect(alloc: Global, changing: &Changing<'_>, effect: &EffAst, faults: &mut FirstFault)
    ensures { faults.new ≡ least faults.old (linear.effect_nonlinearities changing.now effect.now) }
{
    match effect {
        EffAst::Put { .. } => {}
        EffAst::Change { op, by, .. } => judge_change(alloc, changing, op, by, faults),
    }
}

fn judge_effects(
    alloc: Global,
    changing: &Changing<'_>,
    effects: &[EffAst],
    faults: &mut FirstFault,
)
    ensures { faults.new ≡ least faults.old (flat_map (linear.effect_nonlinearities changing.now) effects.now) }
{
    for effect in effects {
        judge_effect(alloc, changing, effect, faults);
    }
}

#[tactic(auto, using(crate::proofs::Noted::both_noted))]
fn judge_action(alloc: Global, changing: &Changing<'_>, action: &ActionAst, faults: &mut FirstFault)
    ensures { faults.new ≡ least faults.old (linear.action_nonlinearities changing.now action.now) }
{
    judge_conditions(alloc, changing, action.conds.as_slice(), faults);
    judge_effects(alloc, changing, action.effs.as_slice(), faults);
}

fn judge_actions(
    alloc: Global,
    changing: &Changing<'_>,
    actions: &[ActionAst],
    faults: &mut FirstFault,
)
    ensures { faults.new ≡ least faults.old (flat_map (linear.action_nonlinearities changing.now) actions.now) }
{
    for action in actions {
        judge_action(alloc, changing, action, faults);
    }
}

/// The pass over the linearity of a domain with these actions.
#[tactic(auto, unfolding(crate::specs::Linear::domain_nonlinearities))]
pub fn judge_domain_linearity(alloc: Global, changing: &Changing<'_>, faults: &mut FirstFault)
    ensures { faults.new ≡ least faults.old (linear.domain_nonlinearities changing.now) }
{
    judge_actions(alloc, changing, changing.actions, faults);
}

/// The pass over the linearity of a problem's goal.
#[tactic(auto, unfolding(crate::specs::Linear::goal_nonlinearities))]
pub fn judge_goal_linearity(
    alloc: Global,
    changing: &Changing<'_>,
    goal: &[CondAst],
    faults: &mut FirstFault,
)
    ensures { faults.new ≡ least faults.old (linear.goal_nonlinearities changing.now goal.now) }
{
    judge_conditions(alloc, changing, goal, faults);
}
