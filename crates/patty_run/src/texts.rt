//! Two texts to their task: each is read by itself, the domain first, and then they are linked.
ghost use Rattle.std.specs.Prelude.{◌≤◌, length, IfOk, IsTrue};
ghost use Rattle.sexpr.specs.declared.fault.Source.TheVariants as source;
ghost use Rattle.pddl_domain.specs.Domain.{domain_form};
ghost use Rattle.pddl_domain.specs.Grammar.{is_domain};
ghost use Rattle.pddl_problem.specs.Problem.{problem_form};
ghost use Rattle.pddl_problem.specs.Grammar.{is_problem};
ghost use Rattle.patty_run.specs.Texts.{ReadsText};
ghost use Rattle.patty_run.specs.Tasks.{ReadsTask};

use crate::Stop;
use patty_io::LIMIT;
use pddl_domain::{DomainAst, read_domain};
use pddl_problem::{ProblemAst, read_problem};
use pddl_task::Task;
use sexpr::{Source, TextRefusal, read};
use std::alloc::Global;
use typing::link;

fn read_domain_text(alloc: Global, bytes: &[u8]) -> Result<DomainAst, TextRefusal>
    requires { length bytes.now ≤ LIMIT }
    ensures reads { ReadsText domain_form source.Domain bytes.now result }
    ensures grammar { IfOk result (λ made. IsTrue (is_domain made)) }
{
    let tree = match read(alloc, Source::Domain, bytes) {
        Ok(tree) => tree,
        Err(refusal) => return Err(refusal),
    };
    read_domain(alloc, &tree)
}

fn read_problem_text(alloc: Global, bytes: &[u8]) -> Result<ProblemAst, TextRefusal>
    requires { length bytes.now ≤ LIMIT }
    ensures reads { ReadsText problem_form source.Problem bytes.now result }
    ensures grammar { IfOk result (λ made. IsTrue (is_problem made)) }
{
    let tree = match read(alloc, Source::Problem, bytes) {
        Ok(tree) => tree,
        Err(refusal) => return Err(refusal),
    };
    read_problem(alloc, &tree)
}

/// The task of two texts, or their first fault.
pub fn read_task(alloc: Global, domain: &[u8], problem: &[u8]) -> Result<Task, Stop>
    requires domain_small { length domain.now ≤ LIMIT }
    requires problem_small { length problem.now ≤ LIMIT }
    ensures { ReadsTask domain.now problem.now result }
{
    let first = match read_domain_text(alloc, domain) {
        Ok(first) => first,
        Err(TextRefusal::Fault(fault)) => return Err(Stop::Fault(fault)),
        Err(TextRefusal::Memory) => return Err(Stop::Memory),
    };
    let second = match read_problem_text(alloc, problem) {
        Ok(second) => second,
        Err(TextRefusal::Fault(fault)) => return Err(Stop::Fault(fault)),
        Err(TextRefusal::Memory) => return Err(Stop::Memory),
    };
    match link(alloc, first, second) {
        Ok(task) => Ok(task),
        Err(TextRefusal::Fault(fault)) => Err(Stop::Fault(fault)),
        Err(TextRefusal::Memory) => Err(Stop::Memory),
    }
}
