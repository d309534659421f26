// What is sought of an entity, where one container lists it: by places, if all of it has been found there.
ghost use Rattle.std.specs.Prelude.{◌≡◌, ◌∷◌, [], true, Some, filter, map, unwrap_or, IfOk, IfSome};
ghost use Rattle.opa_case.specs.Cases.{are_names, list_of};
ghost use Rattle.opa_cells.specs.Instances.{named};
ghost use Rattle.opa_session.specs.Telling.Placed.{HaveNames};
ghost use Rattle.opa_session.specs.Telling.Wanted.{has_wanted, wanted_listed};

use crate::telling::by_places::{found_by, places_of};
use crate::telling::lined::Lined;
use crate::telling::sought::Sought;
use opa_case::InstanceId;
use opa_io::{List, NoMemory, Txt};
use opa_model::RelId;
use std::alloc::Global;

/// From so many names on the places of names are noted.
pub(crate) const LONG: usize = 64;

const FEW: usize = 16;

/// What is sought in the list of the only container; none where it has to be looked for.
pub(crate) fn listed_by_one<K: Lined>(
    alloc: Global,
    held: &K,
    rel: RelId,
    entity: u32,
    containers: &[InstanceId],
    sought: &Sought,
) -> Result<Option<List<InstanceId>>, NoMemory>
    requires { HaveNames (K.over held.now) rel }
    ensures { IfOk result (λ o. IfSome o (λ found. found ≡ wanted_listed (has_wanted sought.now.wanted) (list_of (K.over held.now)) rel entity containers.now)) }
{
    match only_one(containers) {
        None => Ok(None),
        Some(container) => {
            let found = listed_at(alloc, held, rel, entity, container, sought)?;
            Ok(found)
        }
    }
}

fn only_one(containers: &[InstanceId]) -> Option<&InstanceId>
    ensures { IfSome result (λ container. containers.now ≡ container.now ∷ []) }
{
    match containers {
        [container] => Some(container),
        _ => None,
    }
}

fn listed_at<K: Lined>(
    alloc: Global,
    held: &K,
    rel: RelId,
    entity: u32,
    container: &InstanceId,
    sought: &Sought,
) -> Result<Option<List<InstanceId>>, NoMemory>
    requires { HaveNames (K.over held.now) rel }
    ensures { IfOk result (λ o. IfSome o (λ found. found ≡ filter (has_wanted sought.now.wanted) (map (named entity) (unwrap_or (list_of (K.over held.now) rel container.now) [])))) }
{
    match held.list_of(rel, container) {
        None => Ok(None),
        Some(names) => {
            let found = in_long(alloc, held, entity, names.as_slice(), sought)?;
            Ok(found)
        }
    }
}

/// What is sought in a long list, if it is little.
fn in_long<K: Lined>(
    alloc: Global,
    held: &K,
    entity: u32,
    names: &[Txt],
    sought: &Sought,
) -> Result<Option<List<InstanceId>>, NoMemory>
    requires { are_names names.now ≡ true }
    ensures { IfOk result (λ o. IfSome o (λ found. found ≡ filter (has_wanted sought.now.wanted) (map (named entity) names.now))) }
{
    let all = sought.all.as_slice();
    if names.len() < LONG || all.len() > FEW {
        return Ok(None);
    }
    match places_of(alloc, held, entity, names, all)? {
        None => Ok(None),
        Some(places) => {
            let found = found_by(alloc, entity, names, places.as_slice(), sought)?;
            Ok(Some(found))
        }
    }
}
