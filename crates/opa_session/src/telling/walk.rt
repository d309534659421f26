// The live slots, in their order.
ghost use Rattle.std.specs.Prelude.{◌≡◌, ◌++◌, map, flat_map, length, slice_index_or, [], IfOk, OnOk};
ghost use Rattle.opa_case.specs.Shapes.{shape_of};
ghost use Rattle.opa_session.specs.Telling.Walking.{slots_over, with_listed};
ghost use Rattle.opa_mean.specs.Changes as meant;
ghost use Rattle.opa_mean.specs.Given.{base_of, facts_of};
ghost use Rattle.opa_mean.specs.Rulebases.{IsOf};

use crate::telling::instances::instances_among;
use crate::telling::lined::Lined;
use crate::telling::order::by_rank;
use opa_case::{Case, InstanceId, instances_of, live_instances};
use opa_io::{List, NoMemory};
use opa_mean::{Held, owner_of};
use opa_model::AttrId;
use opa_tree::Rulebase;
use std::alloc::Global;

/// The live slots of what is held: each attribute with a rule, at each live instance of its entity. They stand by rank, then in
/// declared order, then in instance order.
pub fn slots<H: Held>(alloc: Global, held: &H) -> Result<List<(AttrId, InstanceId)>, NoMemory>
    ensures { IfOk result (λ all. all ≡ meant.slots (base_of (H.rules held.now)) (facts_of (H.held held.now))) }
{
    let base = held.base();
    let case = held.case();
    let all = live_slots(alloc, base, case)?;
    Ok(all)
}

/// How many live slots there are.
pub fn slot_count<H: Held>(alloc: Global, held: &H) -> Result<u64, NoMemory>
    ensures { IfOk result (λ n. n ≡ length (meant.slots (base_of (H.rules held.now)) (facts_of (H.held held.now)))) }
{
    let all = slots(alloc, held)?;
    Ok(all.len() as u64)
}

/// The same of a case that fits a rulebase.
pub fn live_slots(
    alloc: Global,
    base: &Rulebase,
    case: &Case,
) -> Result<List<(AttrId, InstanceId)>, NoMemory>
    requires { IsOf base.now case.now }
    ensures { IfOk result (λ all. all ≡ meant.slots (base_of base.now) (facts_of case.now)) }
{
    let live = live_instances(alloc, &base.model, &base.ruled, case)?;
    let order = by_rank(alloc, base)?;
    let attrs = order.as_slice();
    let lists = live.as_slice();
    let all = with_instances(alloc, base, attrs, lists)?;
    Ok(all)
}

/// The same of what tells lines.
pub(crate) fn lined_slots<K: Lined>(
    alloc: Global,
    held: &K,
) -> Result<List<(AttrId, InstanceId)>, NoMemory>
    ensures { IfOk result (λ all. all ≡ meant.slots (base_of (K.rules held.now)) (facts_of (K.over held.now))) }
{
    let base = held.base();
    let live = instances_among(alloc, held, None)?;
    let order = by_rank(alloc, base)?;
    let attrs = order.as_slice();
    let lists = live.as_slice();
    let all = with_instances(alloc, base, attrs, lists)?;
    Ok(all)
}

/// The slots of attributes, at the instances that are listed for their entities.
fn with_instances(
    alloc: Global,
    base: &Rulebase,
    attrs: &[AttrId],
    live: &[List<InstanceId>],
) -> Result<List<(AttrId, InstanceId)>, NoMemory>
    ensures { IfOk result (λ all. all ≡ slots_over (shape_of base.now.model) live.now attrs.now) }
{
    let mut all = List::new(alloc);
    for attr in attrs {
        add_owned(alloc, base, *attr, live, &mut all)?;
    }
    Ok(all)
}

/// Adds the slots of an attribute.
fn add_owned(
    alloc: Global,
    base: &Rulebase,
    attr: AttrId,
    live: &[List<InstanceId>],
    all: &mut List<(AttrId, InstanceId)>,
) -> Result<(), NoMemory>
    ensures { OnOk result (all.new ≡ all.old ++ with_listed (shape_of base.now.model) live.now attr) }
{
    let owned = instances_of(live, owner_of(&base.model, attr));
    add_slots(alloc, attr, owned, all)?;
    Ok(())
}

fn add_slots(
    alloc: Global,
    attr: AttrId,
    owned: &[InstanceId],
    all: &mut List<(AttrId, InstanceId)>,
) -> Result<(), NoMemory>
    ensures { OnOk result (all.new ≡ all.old ++ map (λ i. (attr, i)) owned.now) }
{
    for inst in owned {
        all.push((attr, inst.copy(alloc)?))?;
    }
    Ok(())
}
