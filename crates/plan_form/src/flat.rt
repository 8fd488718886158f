//! How many steps a plan has.
ghost use Rattle.std.specs.Prelude.{◌≡◌, ◌-◌, ◌^◌, min, sum_by};
ghost use Rattle.plan_form.specs.Printed.{flat_length};

use crate::plan::{Part, Plan};

/// The sum of the counts, or the greatest number of 128 bits where it is more.
fn sum_of_counts(parts: &[Part]) -> u128
    ensures { result ≡ min (sum_by (λ part. part.count) parts.now) (2 ^ 128 - 1) }
{
    let mut sum: u128 = 0;
    for part in parts {
        sum = sum.saturating_add(part.count);
    }
    sum
}

/// How many steps there are, or the greatest number of 128 bits where there are more.
pub fn flat_len(plan: &Plan) -> u128
    ensures { result ≡ flat_length plan.now }
{
    sum_of_counts(plan.parts())
}
