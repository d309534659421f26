// Of the slots of attributes those that are marked, in the order of slots.
ghost use Rattle.std.specs.Prelude.{◌≡◌, ◌++◌, ◌∷◌, [], filter, map, slice_index_or, IfOk, OnOk};
ghost use Rattle.opa_case.specs.Shapes.{shape_of};
ghost use Rattle.opa_session.specs.Telling.Among.{AreMarked, is_marked, marked_among as marked_of};
ghost use Rattle.opa_session.specs.Telling.Walking.{with_listed};

use opa_case::{InstanceId, instances_of};
use opa_cells::Cells;
use opa_io::{List, NoMemory};
use opa_mean::{Slot, owner_of};
use opa_model::{AttrId, Model};
use std::alloc::Global;

/// Marks of slots.
pub(crate) fn marks_of(alloc: Global, slots: &[Slot]) -> Result<Cells<bool>, NoMemory>
    ensures { IfOk result (AreMarked slots.now) }
{
    let mut marks = Cells::new(alloc);
    for slot in slots {
        let inst = slot.inst.copy(alloc)?;
        marks.insert(slot.attr.0, inst, true)?;
    }
    Ok(marks)
}

/// The marked slots of attributes.
pub(crate) fn marked_among(
    alloc: Global,
    model: &Model,
    live: &[List<InstanceId>],
    marks: &Cells<bool>,
    attrs: &[AttrId],
) -> Result<List<(AttrId, InstanceId)>, NoMemory>
    ensures { IfOk result (λ all. all ≡ marked_of (shape_of model.now) live.now marks.now attrs.now) }
{
    let mut all = List::new(alloc);
    for attr in attrs {
        let owned = instances_of(live, owner_of(model, *attr));
        add_marked(alloc, *attr, owned, marks, &mut all)?;
    }
    Ok(all)
}

/// Adds the marked slots of an attribute.
fn add_marked(
    alloc: Global,
    attr: AttrId,
    owned: &[InstanceId],
    marks: &Cells<bool>,
    all: &mut List<(AttrId, InstanceId)>,
) -> Result<(), NoMemory>
    ensures { OnOk result (all.new ≡ all.old ++ filter (is_marked marks.now) (map (λ i. (attr, i)) owned.now)) }
{
    for inst in owned {
        add_if_marked(alloc, attr, inst, marks, all)?;
    }
    Ok(())
}

fn add_if_marked(
    alloc: Global,
    attr: AttrId,
    inst: &InstanceId,
    marks: &Cells<bool>,
    all: &mut List<(AttrId, InstanceId)>,
) -> Result<(), NoMemory>
    ensures { OnOk result (all.new ≡ all.old ++ filter (is_marked marks.now) ((attr, inst.now) ∷ [])) }
{
    if marks.get(attr.0, inst).is_some() {
        let inst = inst.copy(alloc)?;
        all.push((attr, inst))?;
        Ok(())
    } else {
        Ok(())
    }
}
