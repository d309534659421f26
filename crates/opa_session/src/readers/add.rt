// A slot that is added where it reads.
ghost use Rattle.std.specs.Prelude.{◌≡◌, [], IfOk, OnErr, OnOk};
ghost use Rattle.opa_session.specs.Readers.Indexes.{AddsAt, AddsSlot, SameTable};

use opa_case::InstanceId;
use opa_cells::Cells;
use opa_io::NoMemory;
use opa_mean::Slot;
use opa_model::AttrId;
use std::alloc::Global;
use std::collections::BTreeSet;

/// Adds a slot to those at a key.
pub(crate) fn add_at(
    alloc: Global,
    cells: &mut Cells<BTreeSet<Slot>>,
    number: u32,
    key: &InstanceId,
    attr: AttrId,
    inst: &InstanceId,
) -> Result<(), NoMemory>
    ensures adds { OnOk result (AddsAt cells.old cells.new (number, key.now) (attr, inst.now)) }
    ensures err { OnErr result (SameTable cells.old cells.new) }
{
    match cells.get_mut(number, key) {
        Some(slots) => {
            add_slot(alloc, slots, attr, inst)?;
            Ok(())
        }
        None => {
            let slots = only(alloc, attr, inst)?;
            let key = key.copy(alloc)?;
            cells.insert(number, key, slots)?;
            Ok(())
        }
    }
}

/// Adds a slot, where it isn't there yet.
fn add_slot(
    alloc: Global,
    slots: &mut BTreeSet<Slot>,
    attr: AttrId,
    inst: &InstanceId,
) -> Result<(), NoMemory>
    ensures adds { OnOk result (AddsSlot slots.old.keys slots.new.keys (attr, inst.now)) }
    ensures err { OnErr result (slots.new.keys ≡ slots.old.keys) }
{
    let inst = inst.copy(alloc)?;
    match slots.insert(Slot { attr, inst }) {
        Ok(_) => Ok(()),
        Err(_) => Err(NoMemory),
    }
}

fn only(alloc: Global, attr: AttrId, inst: &InstanceId) -> Result<BTreeSet<Slot>, NoMemory>
    ensures { IfOk result (λ slots. AddsSlot [] slots.keys (attr, inst.now)) }
{
    let mut slots = BTreeSet::new(alloc);
    add_slot(alloc, &mut slots, attr, inst)?;
    Ok(slots)
}
