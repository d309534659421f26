// Which instance an attribute, or the source of a relation, belongs to.
ghost use Rattle.std.specs.Prelude.{◌≡◌, find};
ghost use Rattle.std.specs.Option.{option_copied};
ghost use Rattle.opa_case.specs.Live.{container_of};
ghost use Rattle.opa_mean.specs.Places.{climb, is_of, place};

use crate::Look;
use opa_case::{Case, InstanceId};
use opa_io::List;
use opa_model::EntityId;

/// The first instance of an entity among an instance and its containers, of which there are at most so many.
fn along<'a, K: Look>(
    look: &'a K,
    from: &'a InstanceId,
    entity: u32,
    most: u32,
) -> Option<&'a InstanceId>
    ensures { option_copied result ≡ find (is_of entity) (climb (K.looks look.now).container most from.now) }
{
    if from.entity.0 == entity {
        return Some(from);
    }
    if most == 0 {
        return None;
    }
    match look.container(from) {
        None => None,
        Some(above) => along(look, above, entity, most - 1),
    }
}

/// The place of an entity over what is looked up.
pub fn place_in<'a, K: Look>(
    look: &'a K,
    enclosing: &'a [InstanceId],
    entity: u32,
) -> Option<&'a InstanceId>
    ensures { option_copied result ≡ place (K.looks look.now).container enclosing.now entity }
{
    for inst in enclosing {
        let found = along(look, inst, entity, inst.entity.0);
        if found.is_some() {
            return found;
        }
    }
    None
}

/// The place of an entity: the first of its instances among the enclosing ones, the innermost first, each followed by its
/// containers. None where there is none. It takes no memory.
pub fn place_of<'a>(
    case: &'a Case,
    enclosing: &'a List<InstanceId>,
    entity: EntityId,
) -> Option<&'a InstanceId>
    ensures { option_copied result ≡ place (container_of case.now.live) enclosing.now entity.0 }
{
    place_in(case, enclosing.as_slice(), entity.0)
}
