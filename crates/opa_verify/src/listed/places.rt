// Which instance an attribute, or the source of a relation, belongs to, by listed containers.
ghost use Rattle.std.specs.Prelude.{◌≡◌, Option};
ghost use Rattle.std.specs.Option.{option_copied, option_map};
ghost use Rattle.opa_cells.specs.declared.instance.InstanceId.{InstanceId as Instance};
ghost use Rattle.opa_verify.specs.Listed.Ways as way;
ghost use Rattle.opa_verify.specs.Listed.Ways.{place_seen, walk_up, way_told};

use opa_case::InstanceId;

/// The containers that are listed.
pub trait Containers {
    ghost containers: { Self → Instance → Option Instance };

    fn container(&self, inst: &InstanceId) -> Option<&InstanceId>
        ensures { option_copied result ≡ containers self.now inst.now };
}

/// Where a walk from an instance leads by at most so many containers; none where one is missing.
fn up<'a, K: Containers>(
    listed: &'a K,
    from: &'a InstanceId,
    entity: u32,
    most: u32,
) -> Option<Option<&'a InstanceId>>
    ensures { option_map option_copied result ≡ way_told (walk_up (K.containers listed.now) entity most from.now) }
{
    if from.entity.0 == entity {
        return Some(Some(from));
    }
    if most == 0 {
        return Some(None);
    }
    match listed.container(from) {
        Some(above) => up(listed, above, entity, most - 1),
        None => if from.is_global() { Some(None) } else { None },
    }
}

/// The place of an entity from the enclosing instances, by listed containers; none where it is missing.
pub fn place_by<'a, K: Containers>(
    listed: &'a K,
    enclosing: &'a [InstanceId],
    entity: u32,
) -> Option<Option<&'a InstanceId>>
    ensures { option_map option_copied result ≡ place_seen (K.containers listed.now) enclosing.now entity }
{
    for inst in enclosing {
        match up(listed, inst, entity, inst.entity.0) {
            Some(None) => {}
            Some(Some(found)) => return Some(Some(found)),
            None => return None,
        }
    }
    Some(None)
}

/// Whether an instance has listed containers up to the global one.
pub fn is_rooted<K: Containers>(listed: &K, inst: &InstanceId) -> bool
    ensures { result ≡ way.is_rooted (K.containers listed.now) inst.now }
{
    climbs(listed, inst, inst.entity.0)
}

/// Whether at most so many containers lead from an instance to the global one.
fn climbs<K: Containers>(listed: &K, from: &InstanceId, most: u32) -> bool
    ensures { result ≡ way.climbs (K.containers listed.now) most from.now }
{
    if from.is_global() {
        return true;
    }
    if most == 0 {
        return false;
    }
    match listed.container(from) {
        None => false,
        Some(above) => climbs(listed, above, most - 1),
    }
}
