// The lines and lists that the rule of an attribute can look at.
ghost use Rattle.std.specs.Prelude.{◌≡◌, ◌++◌, ◌∷◌, [], IfOk, IsSome};
ghost use Rattle.opa_case.specs.Cases.{IsLive};
ghost use Rattle.opa_case.specs.Fits.{Fits};
ghost use Rattle.opa_case.specs.Shapes.{shape_of};
ghost use Rattle.opa_mean.specs.Given.{base_of, facts_of};
ghost use Rattle.opa_mean.specs.Gathering.{AreThose};
ghost use Rattle.opa_mean.specs.Places.{owner_of};
ghost use Rattle.opa_mean.specs.Reads.{reads_of, reads_over as looked_at};
ghost use Rattle.opa_tree.specs.Rules.{rule_of};

use crate::gathering::gather_once;
use crate::look::Look;
use crate::read::gather;
use opa_case::{Case, InstanceId, Question};
use opa_io::{List, NoMemory};
use opa_model::AttrId;
use opa_tree::Rulebase;
use std::alloc::Global;

/// What the rule of an attribute can look at for an instance, in written order with repeats: a question of an attribute
/// stands for its line, and one of members for the list.
pub fn reads(
    alloc: Global,
    base: &Rulebase,
    case: &Case,
    attr: AttrId,
    inst: &InstanceId,
) -> Result<List<Question>, NoMemory>
    requires ruled { IsSome (rule_of base.now.rules attr) }
    requires live { IsLive case.now inst.now }
    requires owner { inst.now.entity.0 ≡ owner_of (shape_of base.now.model) attr }
    requires fits { Fits (shape_of base.now.model) base.now.ruled case.now }
    ensures { IfOk result (λ found. found ≡ reads_of (base_of base.now) (facts_of case.now) attr inst.now) }
{
    reads_over(alloc, base, case, attr, inst)
}

/// The same of any attribute and instance where lists and containers are looked up: nothing where there is no rule.
pub fn reads_over<K: Look>(
    alloc: Global,
    base: &Rulebase,
    look: &K,
    attr: AttrId,
    inst: &InstanceId,
) -> Result<List<Question>, NoMemory>
    ensures { IfOk result (λ found. found ≡ looked_at (base_of base.now) (K.looks look.now) attr inst.now) }
{
    let mut found = List::new(alloc);
    if let Some(rule) = base.rules.of(attr) {
        let enclosing = alone(alloc, inst)?;
        gather(
            alloc,
            &base.model,
            look,
            &mut found,
            &rule.expr,
            enclosing.as_slice(),
        )?;
    }
    Ok(found)
}

/// The same questions, each at least once: what a quantifier in another looks at the same for several members isn't
/// gathered for each of them.
pub fn gathered_over<K: Look>(
    alloc: Global,
    base: &Rulebase,
    look: &K,
    attr: AttrId,
    inst: &InstanceId,
) -> Result<List<Question>, NoMemory>
    ensures { IfOk result (λ found. AreThose found (looked_at (base_of base.now) (K.looks look.now) attr inst.now)) }
{
    let mut found = List::new(alloc);
    match base.rules.of(attr) {
        None => Ok(found),
        Some(rule) => {
            let enclosing = alone(alloc, inst)?;
            let around = enclosing.as_slice();
            gather_once(
                alloc,
                &base.model,
                look,
                &mut found,
                &rule.expr,
                around,
                &[],
            )?;
            Ok(found)
        }
    }
}

/// An instance as the only enclosing one.
pub fn alone(alloc: Global, inst: &InstanceId) -> Result<List<InstanceId>, NoMemory>
    ensures { IfOk result (λ all. all ≡ inst.now ∷ []) }
{
    let mut all = List::new(alloc);
    all.push(inst.copy(alloc)?)?;
    Ok(all)
}
