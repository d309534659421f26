// Where the names of a long list stand is noted when it is set.
ghost use Rattle.std.specs.Prelude.{◌≡◌, ◌<◌, true, length};
ghost use Rattle.opa_model.specs.Models.{HasRelation};

use crate::store::Store;
use crate::telling::LONG;
use opa_case::{Case, InstanceId};
use opa_io::{List, NoMemory, Same, Txt};
use opa_model::RelId;
use opa_tree::Rulebase;
use std::alloc::Global;
use std::sync::ledger::Ledger;

/// Notes where the names of a list that is set stand, if it is long. Those in front that stand there already are passed over.
pub(crate) fn note_places<L: Ledger>(
    alloc: Global,
    base: &Rulebase,
    held: &Case,
    rel: RelId,
    inst: &InstanceId,
    names: Option<&List<Txt>>,
    store: &mut Store<L>,
) -> Result<(), NoMemory>
    requires { HasRelation base.now.model rel }
    ensures { store.new ≡ store.old }
{
    match names {
        Some(names) => {
            if names.len() < LONG {
                return Ok(());
            }
            let entity = base.model.relation(rel).target;
            let same = same_in_front(held.list_of(rel, inst), names.as_slice());
            store.note(alloc, entity, names.as_slice(), same)
        }
        None => Ok(()),
    }
}

/// How many names in front stand as they stood.
fn same_in_front(before: Option<&List<Txt>>, names: &[Txt]) -> usize {
    match before {
        Some(before) => same_until(before.as_slice(), names),
        None => 0,
    }
}

fn same_until(before: &[Txt], names: &[Txt]) -> usize {
    let mut at = 0;
    while is_same_at(before, names, at) {
        at += 1;
    }
    at
}

fn is_same_at(before: &[Txt], names: &[Txt], at: usize) -> bool
    ensures { result ≡ true → at < length names.now }
{
    at < names.len() && at < before.len() && before[at].same(&names[at])
}
