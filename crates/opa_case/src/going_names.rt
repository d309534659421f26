// The names of what goes, entity by entity.
ghost use Rattle.std.specs.Prelude.{◌≡◌, IfOk};
ghost use Rattle.opa_case.specs.Listed.{is_in_row, is_indexed};
ghost use Rattle.opa_case.specs.Relists.{AreNamesOf};

use crate::index::{Index, Sources, add_name};
use opa_cells::InstanceId;
use opa_io::{NoMemory, Txt};
use std::alloc::Global;
use std::collections::BTreeMap;

/// The names of some instances, each with one source.
pub(crate) fn names_of(
    alloc: Global,
    instances: &[(InstanceId, InstanceId)],
    at: &InstanceId,
) -> Result<Index, NoMemory>
    ensures { IfOk result (λ index. AreNamesOf instances.now index.entries at.now) }
{
    let mut index = BTreeMap::new(alloc);
    for (inst, _) in instances {
        add_name(alloc, &mut index, inst.entity.0, &inst.name, at)?;
    }
    Ok(index)
}

/// Whether a name of an entity has a source.
pub(crate) fn is_named(index: &Index, entity: u32, name: &Txt, at: &InstanceId) -> bool
    ensures { result ≡ is_indexed index.now.entries entity name.now at.now }
{
    match index.get(&entity) {
        Some(row) => stands_in(row, name, at),
        None => false,
    }
}

fn stands_in(row: &BTreeMap<Txt, Sources>, name: &Txt, at: &InstanceId) -> bool
    ensures { result ≡ is_in_row row.now.entries name.now at.now }
{
    match row.get(name) {
        Some(sources) => sources.contains_key(at),
        None => false,
    }
}
