// Enclosing instances behind a place for one member of a list after another.
ghost use Rattle.std.specs.Prelude.{◌≡◌, ◌∷◌, IfOk, OnOk};
ghost use Rattle.opa_cells.specs.Instances.{named};
ghost use Rattle.opa_need.specs.Inner.{HasRoom};

use opa_case::InstanceId;
use opa_io::{List, NoMemory, Txt};
use opa_model::EntityId;
use std::alloc::Global;

/// The enclosing instances behind a first place, which is for a member.
pub(crate) fn with_room(
    alloc: Global,
    enclosing: &List<InstanceId>,
) -> Result<List<InstanceId>, NoMemory>
    ensures { IfOk result (HasRoom enclosing.now) }
{
    let mut inner = List::new(alloc);
    inner.push(InstanceId::global(alloc)?)?;
    for inst in enclosing.as_slice() {
        inner.push(inst.copy(alloc)?)?;
    }
    Ok(inner)
}

/// Puts a member into the first place.
pub(crate) fn put_first(
    alloc: Global,
    inner: &mut List<InstanceId>,
    _enclosing: &List<InstanceId>,
    entity: u32,
    name: &Txt,
) -> Result<(), NoMemory>
    requires { HasRoom _enclosing.now inner.old }
    ensures { OnOk result (inner.new ≡ named entity name.now ∷ _enclosing.now) }
{
    let name = name.copy(alloc)?;
    let mut places = std::mem::replace(inner, List::new(alloc)).into_vec();
    places[0] = InstanceId {
        entity: EntityId(entity),
        name,
    };
    *inner = List::from_vec(places);
    Ok(())
}
