//! The task that a written domain and problem come to. Begin with `link`: one pass after another, the first that finds a
//! fault gives the answer.
ghost use Rattle.std.specs.Prelude.{◌≡◌, true, [], length, Err, IfErr, IfOk, IsTrue, OnOk};
ghost use Rattle.sexpr.specs.declared.fault.Source.TheVariants as source;
ghost use Rattle.pddl_form.specs.Concluded.{Answers, RefusesBy};
ghost use Rattle.pddl_form.specs.Judged.{good};
ghost use Rattle.pddl_domain.specs.Grammar.{is_domain};
ghost use Rattle.pddl_problem.specs.Grammar.{is_problem};
ghost use Rattle.typing_names.specs.Domain.{domain_names, domain_scope};
ghost use Rattle.typing_names.specs.Problem.{problem_names, problem_scope};
ghost use Rattle.typing_types.specs.Types.{domain_types, problem_types, problem_faults};
ghost use Rattle.typing_linear.specs.Linear.{domain_nonlinearities, goal_nonlinearities};
ghost use Rattle.typing_names.specs.Faults.{tested};
ghost use Rattle.typing.specs.Link.{Links};
ghost use Rattle.typing_names.specs.Tables.{scope_in, parts_of, problem_parts_of};
ghost use Rattle.typing_names.specs.Items.{items_of, are_counted};
ghost use Rattle.typing_types.specs.Known.{declared_of, AreTyped, have_types, domain_type_faults};
ghost use Rattle.typing.specs.Resolved.{IsResolved, AreResolved, AreLinear, LinearityRefuses, AreFaultless, declared_in};

use crate::making::make_task;
use name_table::NameTable;
use pddl_domain::DomainAst;
use pddl_form::{FirstFault, conclude};
use pddl_problem::ProblemAst;
use pddl_task::{Action, Object, Task};
use sexpr::{Source, TextRefusal};
use std::alloc::Global;
use typing_linear::{Changing, judge_domain_linearity, judge_goal_linearity};
use typing_names::{DomainNames, Item, ProblemNames, Tables, resolve_domain, resolve_problem};
use typing_types::{Known, judge_domain_types, judge_problem_types};
use typing_uses::Names;

/// The pass over the domain's names.
fn pass_domain_names(alloc: Global, domain: &DomainAst) -> Result<DomainNames, TextRefusal>
    requires { IsTrue (is_domain domain.now) }
    ensures made { IfOk result (λ n. IsResolved domain.now n) }
    ensures refused { IfErr result (RefusesBy source.Domain (domain_names domain.now)) }
{
    let mut faults = FirstFault::new();
    let made = resolve_domain(alloc, domain, &mut faults)?;
    conclude(Source::Domain, made, faults)
}

/// What the passes over types know, with the objects of a problem.
fn known_by<'a>(made: &'a DomainNames, objects: &'a [Object], params: &'a NameTable) -> Known<'a>
    requires { params.now ≡ [] }
    ensures { declared_of result ≡ declared_in made.now objects.now }
{
    Known {
        names: Names {
            types: &made.tables.types,
            objects: &made.tables.objects,
            preds: &made.tables.preds,
            funcs: &made.tables.funcs,
            params,
        },
        hierarchy: &made.hierarchy,
        constants: made.objects.as_slice(),
        objects,
        preds: made.preds.as_slice(),
        funcs: made.funcs.as_slice(),
        params: &[],
    }
}

/// Judges the domain's types by what is known.
fn judge_domain<'a>(
    alloc: Global,
    known: &Known<'a>,
    domain: &DomainAst,
    actions: &'a [Action],
) -> Result<(), TextRefusal>
    requires typed { AreTyped (declared_of known.now) }
    requires actions { have_types (length known.now.hierarchy.now) actions.now ≡ true }
    ensures { Answers source.Domain (tested (domain_type_faults (declared_of known.now) domain.now actions.now)) result }
{
    let mut faults = FirstFault::new();
    judge_domain_types(alloc, known, domain, actions, &mut faults)?;
    conclude(Source::Domain, Some(()), faults)
}

/// The pass over the domain's types.
fn pass_domain_types(
    alloc: Global,
    domain: &DomainAst,
    made: &DomainNames,
) -> Result<(), TextRefusal>
    requires { IsResolved domain.now made.now }
    ensures { Answers source.Domain (tested (domain_types domain.now (parts_of made.now))) result }
{
    let params = NameTable::new(alloc);
    let known = known_by(made, &[], &params);
    judge_domain(alloc, &known, domain, made.actions.as_slice())
}

/// The pass over the problem's names, whose objects are added to the domain's in the tables.
fn pass_problem_names(
    alloc: Global,
    tables: &mut Tables,
    domain: &DomainAst,
    problem: &ProblemAst,
) -> Result<ProblemNames, TextRefusal>
    requires tables { scope_in tables.old ≡ domain_scope domain.now }
    requires grammar { IsTrue (is_problem problem.now) }
    ensures made { IfOk result (λ more. problem_names domain.now problem.now ≡ good (problem_parts_of more)) }
    ensures tables { OnOk result (scope_in tables.new ≡ problem_scope domain.now problem.now) }
    ensures refused { IfErr result (RefusesBy source.Problem (problem_names domain.now problem.now)) }
{
    let mut faults = FirstFault::new();
    let more = resolve_problem(alloc, tables, domain, problem, &mut faults)?;
    conclude(Source::Problem, more, faults)
}

/// Judges the problem's types by what is known.
fn judge_problem(
    alloc: Global,
    known: &Known<'_>,
    problem: &ProblemAst,
    items: &[Item],
) -> Result<(), TextRefusal>
    requires typed { AreTyped (declared_of known.now) }
    requires counted { are_counted (length known.now.preds.now) (length known.now.funcs.now) items.now ≡ true }
    ensures { Answers source.Problem (tested (problem_faults (declared_of known.now) problem.now (items_of items.now))) result }
{
    let mut faults = FirstFault::new();
    judge_problem_types(alloc, known, problem, items, &mut faults)?;
    conclude(Source::Problem, Some(()), faults)
}

/// The pass over the problem's types.
fn pass_problem_types(
    alloc: Global,
    domain: &DomainAst,
    problem: &ProblemAst,
    made: &DomainNames,
    more: &ProblemNames,
) -> Result<(), TextRefusal>
    requires { AreResolved domain.now problem.now made.now more.now }
    ensures { Answers source.Problem (tested (problem_types domain.now (parts_of made.now) problem.now (problem_parts_of more.now))) result }
{
    let params = NameTable::new(alloc);
    let known = known_by(made, more.objects.as_slice(), &params);
    judge_problem(alloc, &known, problem, more.items.as_slice())
}

fn pass_domain_linearity(
    alloc: Global,
    domain: &DomainAst,
    changing: &Changing,
) -> Result<(), TextRefusal>
    requires { changing.now ≡ domain.now.actions }
    ensures { Answers source.Domain (tested (domain_nonlinearities domain.now.actions)) result }
{
    let mut faults = FirstFault::new();
    judge_domain_linearity(alloc, changing, &mut faults);
    conclude(Source::Domain, Some(()), faults)
}

fn pass_goal_linearity(
    alloc: Global,
    domain: &DomainAst,
    problem: &ProblemAst,
    changing: &Changing,
) -> Result<(), TextRefusal>
    requires { changing.now ≡ domain.now.actions }
    ensures { Answers source.Problem (tested (goal_nonlinearities domain.now.actions problem.now.goal)) result }
{
    let mut faults = FirstFault::new();
    judge_goal_linearity(alloc, changing, problem.goal.as_slice(), &mut faults);
    conclude(Source::Problem, Some(()), faults)
}

/// The passes over linearity, the domain first.
fn pass_linearity(
    alloc: Global,
    domain: &DomainAst,
    problem: &ProblemAst,
) -> Result<(), TextRefusal>
    ensures linear { OnOk result (AreLinear domain.now problem.now) }
    ensures refused { IfErr result (LinearityRefuses domain.now problem.now) }
{
    let changing = match Changing::new(alloc, domain.actions.as_slice()) {
        Ok(changing) => changing,
        Err(_) => return Err(TextRefusal::Memory),
    };
    match pass_domain_linearity(alloc, domain, &changing) {
        Ok(()) => pass_goal_linearity(alloc, domain, problem, &changing),
        Err(refusal) => Err(refusal),
    }
}

/// The passes behind those over names and over the domain's types. They only read what the names came to.
fn pass_problem(
    alloc: Global,
    domain: &DomainAst,
    problem: &ProblemAst,
    made: &DomainNames,
    more: &ProblemNames,
) -> Result<(), TextRefusal>
    requires resolved { AreResolved domain.now problem.now made.now more.now }
    requires typed { tested (domain_types domain.now (parts_of made.now)) ≡ good tt }
    ensures faultless { OnOk result (AreFaultless domain.now problem.now made.now more.now) }
    ensures refused { IfErr result (λ e. Links domain.now problem.now (Err e)) }
{
    match pass_problem_types(alloc, domain, problem, made, more) {
        Ok(()) => pass_linearity(alloc, domain, problem),
        Err(refusal) => Err(refusal),
    }
}

/// The last passes, and the task.
fn link_problem(
    alloc: Global,
    domain: &DomainAst,
    problem: &ProblemAst,
    made: DomainNames,
    more: ProblemNames,
) -> Result<Task, TextRefusal>
    requires resolved { AreResolved domain.now problem.now made more }
    requires typed { tested (domain_types domain.now (parts_of made)) ≡ good tt }
    ensures { Links domain.now problem.now result }
{
    match pass_problem(alloc, domain, problem, &made, &more) {
        Ok(()) => make_task(alloc, domain, problem, made, more),
        Err(refusal) => Err(refusal),
    }
}

/// The pass over the problem's names, and what follows.
fn link_types(
    alloc: Global,
    domain: &DomainAst,
    problem: &ProblemAst,
    made: DomainNames,
) -> Result<Task, TextRefusal>
    requires resolved { IsResolved domain.now made }
    requires grammar { IsTrue (is_problem problem.now) }
    requires typed { tested (domain_types domain.now (parts_of made)) ≡ good tt }
    ensures { Links domain.now problem.now result }
{
    let mut made = made;
    match pass_problem_names(alloc, &mut made.tables, domain, problem) {
        Ok(more) => link_problem(alloc, domain, problem, made, more),
        Err(refusal) => Err(refusal),
    }
}

/// The pass over the domain's types, and what follows.
fn link_names(
    alloc: Global,
    domain: &DomainAst,
    problem: &ProblemAst,
    made: DomainNames,
) -> Result<Task, TextRefusal>
    requires resolved { IsResolved domain.now made }
    requires grammar { IsTrue (is_problem problem.now) }
    ensures { Links domain.now problem.now result }
{
    match pass_domain_types(alloc, domain, &made) {
        Ok(()) => link_types(alloc, domain, problem, made),
        Err(refusal) => Err(refusal),
    }
}

/// The passes one after another, and the task.
fn link_texts(alloc: Global, domain: &DomainAst, problem: &ProblemAst) -> Result<Task, TextRefusal>
    requires domain { IsTrue (is_domain domain.now) }
    requires problem { IsTrue (is_problem problem.now) }
    ensures { Links domain.now problem.now result }
{
    match pass_domain_names(alloc, domain) {
        Ok(made) => link_names(alloc, domain, problem, made),
        Err(refusal) => Err(refusal),
    }
}

/// Links a domain and a problem to their task, or answers the first fault. They are of the grammar, as all are that
/// `read_domain` and `read_problem` make.
///
/// More things of a kind than 32 bits count are want of memory.
pub fn link(alloc: Global, domain: DomainAst, problem: ProblemAst) -> Result<Task, TextRefusal>
    requires domain { IsTrue (is_domain domain) }
    requires problem { IsTrue (is_problem problem) }
    ensures { Links domain problem result }
{
    link_texts(alloc, &domain, &problem)
}
