//! A plan: instances in order, each with the number of times that it is repeated. Begin with `Plan`.
use pddl_task::Instance;
use sqlite_items::Items;
use std::marker::Model;

/// An instance, and how many of its steps follow one another.
#[derive(Debug, Drop)]
pub struct Part {
    pub count: u128,
    pub by: Instance,
}

/// Parts in order, which contracts see as their list. Each count is at least 1.
#[derive(Debug, Drop)]
pub struct Plan {
    parts: Items<Part>,
}

impl Model for Plan {
    ghost use Rattle.std.specs.Prelude.{List};
    ghost use Rattle.std.specs.Coded.{coded_list};
    ghost use Rattle.plan_form.specs.declared.plan.Part.{Part};
    ghost use Rattle.plan_form.specs.contracts.plan.Part as row;
    ghost use Rattle.plan_form.specs.Printed.{AreCounted};

    ghost Value = { List Part };

    ghost coded = { coded_list row.the_row.coded };

    ghost view = { λ p. p.parts };

    ghost invariant = { λ p. AreCounted p.parts };
}

impl Plan {
    ghost use Rattle.std.specs.Prelude.{◌≡◌};
    ghost use Rattle.plan_form.specs.Printed.{AreCounted};

    pub fn new(parts: Items<Part>) -> Plan
        requires { AreCounted parts }
        ensures { result ≡ parts }
    {
        Plan { parts }
    }

    pub fn parts(&self) -> &[Part]
        ensures value { result.now ≡ self.now }
        ensures counted { AreCounted self.now }
    {
        self.parts.as_slice()
    }
}
