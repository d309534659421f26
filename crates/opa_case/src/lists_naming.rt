// The reference lists that name an instance, found by the index of names.
ghost use Rattle.std.specs.Prelude.{◌≡◌, ◌==◌, ◌&&◌, OnOk};
ghost use Rattle.std.specs.FinMap as map;
ghost use Rattle.opa_case.specs.Listed.{has_source, is_in_row, is_indexed, is_list};
ghost use Rattle.opa_case.specs.Lost.{refers_to};
ghost use Rattle.opa_case.specs.Shapes.{shape_of};
ghost use Rattle.opa_case.specs.Touched.{AddsKeys, may_refer};

use crate::declared::bond_of;
use crate::index::{Index, Sources};
use crate::listed::Listed;
use opa_cells::InstanceId;
use opa_io::{List, NoMemory, Txt};
use opa_model::{Model, RelId};
use std::alloc::Global;
use std::collections::BTreeMap;

/// Adds the reference lists that name an instance. It goes through those lists alone.
pub(crate) fn add_naming(
    alloc: Global,
    model: &Model,
    lists: &Listed,
    inst: &InstanceId,
    keys: &mut List<(RelId, InstanceId)>,
) -> Result<(), NoMemory>
    ensures { OnOk result (AddsKeys keys.old keys.new (λ q j. refers_to (shape_of model.now) inst.now q (map.get lists.now (q, j)))) }
{
    add_indexed(alloc, model, lists.index(), inst, keys)?;
    Ok(())
}

/// Adds the lists of each row.
fn add_indexed(
    alloc: Global,
    model: &Model,
    index: &Index,
    inst: &InstanceId,
    keys: &mut List<(RelId, InstanceId)>,
) -> Result<(), NoMemory>
    ensures { OnOk result (AddsKeys keys.old keys.new (λ q j. may_refer (shape_of model.now) inst.now q && is_indexed index.now.entries q inst.now.name j)) }
{
    for (number, row) in index {
        add_of_row(alloc, model, *number, row, inst, keys)?;
    }
    Ok(())
}

/// Adds the lists of a row that name the instance, where they may refer to it.
fn add_of_row(
    alloc: Global,
    model: &Model,
    number: u32,
    row: &BTreeMap<Txt, Sources>,
    inst: &InstanceId,
    keys: &mut List<(RelId, InstanceId)>,
) -> Result<(), NoMemory>
    ensures { OnOk result (AddsKeys keys.old keys.new (λ q j. q == number && (may_refer (shape_of model.now) inst.now q && is_in_row row.now.entries inst.now.name j))) }
{
    if may_refer(model, number, inst) {
        add_in_row(alloc, number, row, &inst.name, keys)?;
        Ok(())
    } else {
        Ok(())
    }
}

/// Whether the lists of a relation may refer to an instance.
fn may_refer(model: &Model, number: u32, inst: &InstanceId) -> bool
    ensures { result ≡ may_refer (shape_of model.now) inst.now number }
{
    let bond = bond_of(model, number);
    !bond.contains && bond.target == inst.entity.0
}

/// Adds the lists of a row in which a name stands.
fn add_in_row(
    alloc: Global,
    number: u32,
    row: &BTreeMap<Txt, Sources>,
    name: &Txt,
    keys: &mut List<(RelId, InstanceId)>,
) -> Result<(), NoMemory>
    ensures { OnOk result (AddsKeys keys.old keys.new (λ q j. q == number && is_in_row row.now.entries name.now j)) }
{
    match row.get(name) {
        Some(sources) => {
            add_sources(alloc, number, sources, keys)?;
            Ok(())
        }
        None => Ok(()),
    }
}

/// Adds the list of each source.
fn add_sources(
    alloc: Global,
    number: u32,
    sources: &Sources,
    keys: &mut List<(RelId, InstanceId)>,
) -> Result<(), NoMemory>
    ensures { OnOk result (AddsKeys keys.old keys.new (λ q j. q == number && has_source sources.now.entries j)) }
{
    for (inst, _) in sources {
        add_key(alloc, number, inst, keys)?;
    }
    Ok(())
}

/// Adds one list.
pub(crate) fn add_key(
    alloc: Global,
    number: u32,
    inst: &InstanceId,
    keys: &mut List<(RelId, InstanceId)>,
) -> Result<(), NoMemory>
    ensures { OnOk result (AddsKeys keys.old keys.new (is_list number inst.now)) }
{
    let copied = inst.copy(alloc)?;
    keys.push((RelId(number), copied))?;
    Ok(())
}
