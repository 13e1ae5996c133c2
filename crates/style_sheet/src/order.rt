//! The order of rules.
ghost use Rattle.std.specs.Prelude.{◌≡◌, ℕ, ◌<◌, ◌^◌, length, slice_get, Some, IfOk};
ghost use Rattle.std.specs.Ordering.{is_lt};
ghost use Rattle.style_sheet.specs.declared.style.Rule.{Rule};
ghost use Rattle.style_sheet.specs.Order.{AreGreatestFirst, is_less};

use crate::Rule;
use serna_kinds::{Items, NoMemory};
use std::alloc::Global;
use std::cmp::Ordering;

// How two rules compare: by import precedence, then by priority, then by place.
fn compare(a: &Rule, b: &Rule) -> Ordering
    ensures { is_lt result ≡ is_less a.now b.now }
{
    a.precedence
        .cmp(&b.precedence)
        .then(a.priority.cmp(&b.priority))
        .then(a.place.cmp(&b.place))
}

// The numbers of rules, a greater rule before a lesser one.
pub(crate) fn greatest_first(alloc: Global, rules: &[Rule]) -> Result<Items<u32>, NoMemory>
    requires few { length rules.now < 2 ^ 32 }
    requires places { (n : ℕ) (rule : Rule) → slice_get rules.now n ≡ Some rule → rule.place ≡ n }
    ensures { IfOk result (λ order. AreGreatestFirst rules.now order) }
{
    let mut sorted = Vec::with_capacity(alloc, rules.len())?;
    sorted.extend_from_slice(rules)?;
    sorted.sort_by(|a, b| compare(b, a))?;
    let mut order = Items::new(alloc);
    for rule in sorted.iter() {
        order.push(rule.place)?;
    }
    Ok(order)
}
