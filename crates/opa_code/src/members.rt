// Listed instances, each in turn as the innermost enclosing one.
ghost use Rattle.std.specs.Prelude.{◌≡◌, ◌<◌, ◌∷◌, length, drop, IfOk, OnOk};
ghost use Rattle.opa_cells.specs.Instances.{global, named};
ghost use Rattle.opa_mean.specs.Meaning.{at_place};
ghost use Rattle.opa_mean.specs.Places.{place};
ghost use Rattle.opa_code.specs.OverLines.Additions.{HasRoom, IsAdded};

use crate::over_lines::{Items, Operand};
use opa_case::InstanceId;
use opa_io::{List, NoMemory, Txt};
use opa_mean::{Look, place_in};
use opa_model::{AttrId, EntityId};
use opa_value::Value;
use std::alloc::Global;

/// The enclosing instances behind a first place, which is for a listed one.
pub(crate) fn with_room(
    alloc: Global,
    enclosing: &[InstanceId],
) -> Result<Vec<InstanceId>, NoMemory>
    ensures { IfOk result (λ all. all.items ≡ global ∷ enclosing.now) }
{
    let mut all = List::new(alloc);
    all.push(InstanceId::global(alloc)?)?;
    for inst in enclosing {
        all.push(inst.copy(alloc)?)?;
    }
    Ok(all.into_vec())
}

/// Puts a listed instance into the first place.
#[inline(always)]
pub(crate) fn put_first(
    alloc: Global,
    all: &mut Vec<InstanceId>,
    entity: u32,
    name: &Txt,
) -> Result<(), NoMemory>
    requires { 0 < length all.old.items }
    ensures { OnOk result (all.new.items ≡ named entity name.now ∷ drop 1 all.old.items) }
{
    let name = name.copy(alloc)?;
    all[0] = InstanceId {
        entity: EntityId(entity),
        name,
    };
    Ok(())
}

/// The line of an attribute at its place, as one item more.
#[inline(always)]
pub(crate) fn add_attribute<'a, K: Look>(
    alloc: Global,
    look: &'a K,
    attr: AttrId,
    owner: u32,
    enclosing: &[InstanceId],
    items: &mut Items<'a>,
) -> Result<(), NoMemory>
    requires { HasRoom items.old }
    ensures { OnOk result (IsAdded (λ d. at_place (place (K.looks look.now).container enclosing.now owner) (λ i. (K.looks look.now).value attr i d)) items.old items.new) }
{
    match place_in(look, enclosing, owner) {
        None => items.add_value(alloc, &Value::Uncertain),
        Some(inst) => add_looked_up(alloc, look, attr, inst, items),
    }
}

/// The line that is looked up, unknown on every day where there is none, as one item more.
#[inline(always)]
fn add_looked_up<'a, K: Look>(
    alloc: Global,
    look: &'a K,
    attr: AttrId,
    inst: &InstanceId,
    items: &mut Items<'a>,
) -> Result<(), NoMemory>
    requires { HasRoom items.old }
    ensures { OnOk result (IsAdded ((K.looks look.now).value attr inst.now) items.old items.new) }
{
    match look.line(attr, inst) {
        None => items.add_value(alloc, &Value::Unknown),
        Some(line) => items.add(alloc, Operand::seen(line)),
    }
}
