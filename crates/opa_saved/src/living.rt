// Who is live, and where.
ghost use Rattle.std.specs.Prelude.{◌≡◌, cond, ◌==◌, None, Some, length, filter, IfOk, OnOk};
ghost use Rattle.std.specs.Option.{option_or};
ghost use Rattle.opa_cells.specs.declared.instance.InstanceId.{InstanceId as InstanceView};
ghost use Rattle.opa_cells.specs.Instances.{is_same};
ghost use Rattle.opa_case.specs.Live.{container_of, members};

use opa_case::{Counted, Standing};
use opa_cells::InstanceId;
use opa_io::NoMemory;
use opa_model::AttrId;
use std::alloc::Global;
use std::collections::BTreeMap;
use std::marker::Model;

/// The container of each live instance.
type Homes = BTreeMap<InstanceId, InstanceId>;

/// The live instances but the global one, each with its container, in instance order.
#[derive(Drop)]
pub(crate) struct Living {
    order: Vec<(InstanceId, InstanceId)>,
    homes: Homes,
}

impl Model for Living {
    ghost use Rattle.std.specs.Prelude.{◌≡◌};
    ghost use Rattle.std.specs.Coded.{coded_list, coded×};
    ghost use Rattle.opa_cells.specs.Instances.{coded_instance};
    ghost use Rattle.opa_cells.specs.declared.instance.InstanceId.{InstanceId as InstanceView};
    ghost use Rattle.opa_case.specs.Live.{Population, container_of};

    ghost Value = { Population };

    ghost coded = { coded_list (coded× coded_instance coded_instance) };

    ghost view = { λ l. l.order.items };

    ghost invariant = { λ l. (i : InstanceView) → container_of l.homes.entries i ≡ container_of l.order.items i };
}

impl Living {
    /// The instances in this order. Of an instance that stands twice the first container counts.
    pub(crate) fn from_order(
        alloc: Global,
        order: Vec<(InstanceId, InstanceId)>,
    ) -> Result<Living, NoMemory>
        ensures { IfOk result (λ l. l ≡ order.items) }
    {
        let homes = homes_of(alloc, &order)?;
        Ok(Living { order, homes })
    }

    fn len(&self) -> u64
        ensures { result ≡ length self.now }
    {
        self.order.len() as u64
    }

    fn count(&self, entity: u32) -> u64
        ensures { result ≡ length (members entity self.now) }
    {
        if entity == 0 {
            1
        } else {
            count_in(&self.order, entity)
        }
    }
}

/// A case where these are live, and nothing is answered.
impl Standing for Living {
    ghost use Rattle.opa_saved.specs.Loading.{living};

    ghost case = { living };

    fn live(&self, inst: &InstanceId) -> bool {
        inst.is_global() || self.container_of(inst).is_some()
    }

    fn container_of(&self, inst: &InstanceId) -> Option<&InstanceId> {
        self.homes.get(inst)
    }

    fn is_answered(&self, _attr: AttrId, _inst: &InstanceId) -> bool {
        false
    }

    fn answers(&self) -> u64 {
        0
    }
}

impl Counted for Living {
    ghost use Rattle.std.specs.Prelude.{◌≡◌};

    ghost counts = { λ l live. l ≡ live };

    fn of(&self, entity: u32) -> u64 {
        self.count(entity)
    }

    fn total(&self) -> u64 {
        self.len()
    }
}

fn count_in(order: &[(InstanceId, InstanceId)], entity: u32) -> u64
    ensures { result ≡ length (filter (λ p. p.0.entity.0 == entity) order.now) }
{
    let mut count = 0;
    for (inst, _) in order {
        if inst.entity.0 == entity {
            count += 1;
        }
    }
    count
}

fn homes_of(alloc: Global, order: &[(InstanceId, InstanceId)]) -> Result<Homes, NoMemory>
    ensures { IfOk result (λ homes. (i : InstanceView) → container_of homes.entries i ≡ container_of order.now i) }
{
    let mut homes = BTreeMap::new(alloc);
    for (inst, container) in order {
        note(alloc, &mut homes, inst, container)?;
    }
    Ok(homes)
}

/// Notes a container, unless the instance has one.
fn note(
    alloc: Global,
    homes: &mut Homes,
    inst: &InstanceId,
    container: &InstanceId,
) -> Result<(), NoMemory>
    ensures { OnOk result ((i : InstanceView) → container_of homes.new.entries i ≡ option_or (container_of homes.old.entries i) (cond (is_same i inst.now) (Some container.now) None)) }
{
    if homes.contains_key(inst) {
        return Ok(());
    }
    let key = inst.copy(alloc)?;
    let home = container.copy(alloc)?;
    match homes.insert(key, home) {
        Ok(_) => Ok(()),
        Err(_) => Err(NoMemory),
    }
}
