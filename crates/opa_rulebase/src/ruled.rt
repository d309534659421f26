// Which attributes have a rule.
ghost use Rattle.std.specs.Prelude.{◌≡◌, ◌<◌, ℕ, true, false, Bool, length, replicate, slice_set, All, IfOk, OnOk};
ghost use Rattle.opa_tree.specs.declared.rules.Rule.{Rule as RuleView};
ghost use Rattle.opa_tree.specs.Ranks.{AreRuled};

use opa_io::{List, NoMemory, front};
use opa_model::Ruled;
use opa_tree::Rule;
use std::alloc::Global;

/// So many attributes without a rule.
fn without_rules(alloc: Global, count: u32) -> Result<Vec<bool>, NoMemory>
    ensures { IfOk result (λ ruled. ruled.items ≡ replicate count false) }
{
    let mut ruled = Vec::new(alloc);
    for _ in 0..count {
        ruled.push(false)?;
    }
    Ok(ruled)
}

/// Says that an attribute has a rule.
fn set_ruled(ruled: &mut Vec<bool>, place: usize)
    requires { place < length ruled.old.items }
    ensures { ruled.new.items ≡ slice_set ruled.old.items place true }
{
    ruled[place] = true;
}

/// Whether each of so many attributes has a rule, in declared order.
pub fn ruled_of(alloc: Global, count: u32, rules: &[Rule]) -> Result<Ruled, NoMemory>
    requires { All (λ (r : RuleView). r.attr.0 < count) rules.now }
    ensures { IfOk result (AreRuled count rules.now) }
{
    let mut ruled = without_rules(alloc, count)?;
    let mut rest = rules;
    while let Some((rule, later)) = front(rest) {
        set_ruled(&mut ruled, rule.attr.0 as usize);
        rest = later;
    }
    Ok(List::from_vec(ruled))
}
