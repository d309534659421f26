// The lists of a saved case, by their keys.
ghost use Rattle.std.specs.Prelude.{◌≡◌, IfOk, OnOk};
ghost use Rattle.opa_model.specs.Lookups.{relation_named};
ghost use Rattle.opa_saved.specs.Loading as meant;

use crate::declared::find_relation;
use crate::entries::ListEntry;
use crate::list_refusals::list_instance;
use opa_cells::Cells;
use opa_io::{List, NoMemory, Txt, front};
use opa_model::Model;
use std::alloc::Global;

/// The lists whose phrases are declared.
#[tactic(auto, unfolding(crate::specs::Loading::lists_of_file))]
pub(crate) fn lists_of(
    alloc: Global,
    model: &Model,
    entries: &[ListEntry],
) -> Result<Cells<List<Txt>>, NoMemory>
    ensures { IfOk result (λ lists. lists ≡ meant.lists_of_file model.now entries.now) }
{
    let mut lists = Cells::new(alloc);
    let mut rest = entries;
    while let Some((entry, later)) = front(rest) {
        put_list(alloc, model, entry, &mut lists)?;
        rest = later;
    }
    Ok(lists)
}

fn put_list(
    alloc: Global,
    model: &Model,
    entry: &ListEntry,
    lists: &mut Cells<List<Txt>>,
) -> Result<(), NoMemory>
    ensures { OnOk result (lists.new ≡ meant.put_list model.now lists.old (relation_named model.now entry.now.point.phrase) entry.now) }
{
    match find_relation(model, &entry.point.phrase) {
        Some(rel) => {
            let inst = list_instance(alloc, model, rel, &entry.point.name)?;
            let names = copy_names(alloc, entry.names.as_slice())?;
            lists.insert(rel.0, inst, names)
        }
        None => Ok(()),
    }
}

pub(crate) fn copy_names(alloc: Global, names: &[Txt]) -> Result<List<Txt>, NoMemory>
    ensures { IfOk result (λ copied. copied ≡ names.now) }
{
    let mut copied = List::new(alloc);
    for name in names {
        copied.push(name.copy(alloc)?)?;
    }
    Ok(copied)
}
