// The known lists of a case, in declared order and then in instance order.
ghost use Rattle.std.specs.Prelude.{◌≡◌, ◌<◌, ◌++◌, length, map, flat_map, IfOk, OnOk};
ghost use Rattle.serde_json.specs.View.{view};
ghost use Rattle.opa_model.specs.Models.{HasRelation};
ghost use Rattle.opa_case.specs.Cases.{list_of};
ghost use Rattle.opa_saved.specs.Saved as meant;
ghost use Rattle.opa_saved.specs.Told.{lists_told, told_upto};

use crate::declared::relation_of;
use crate::order::members_of;
use crate::values::names_json;
use opa_case::Case;
use opa_cells::InstanceId;
use opa_io::{List, NoMemory, Txt, front};
use opa_model::{Model, RelId};
use serde_json::{Value as Json, json};
use std::alloc::Global;

fn list_json(
    alloc: Global,
    phrase: &Txt,
    inst: &InstanceId,
    names: &List<Txt>,
) -> Result<Json, NoMemory>
    ensures { IfOk result (λ v. view v ≡ meant.list_entry phrase.now inst.now names.now) }
{
    let names = names_json(alloc, names.as_slice())?;
    Ok(json!(in alloc; {"list": phrase.as_str(), "names": names, "of": inst.name.as_str()})?)
}

/// Adds the list of a relation at an instance, if it is known.
fn add_list(
    alloc: Global,
    case: &Case,
    rel: RelId,
    phrase: &Txt,
    inst: &InstanceId,
    out: &mut Vec<Json>,
) -> Result<(), NoMemory>
    ensures { OnOk result (map view out.new.items ≡ map view out.old.items ++ meant.entry_of (meant.list_entry phrase.now inst.now) (list_of case.now rel inst.now)) }
{
    if let Some(names) = case.list_of(rel, inst) {
        out.push(list_json(alloc, phrase, inst, names)?)?;
    }
    Ok(())
}

/// Adds the lists of a relation at instances.
fn add_lists(
    alloc: Global,
    case: &Case,
    rel: RelId,
    phrase: &Txt,
    insts: &[InstanceId],
    out: &mut Vec<Json>,
) -> Result<(), NoMemory>
    ensures { OnOk result (map view out.new.items ≡ map view out.old.items ++ flat_map (λ i. meant.entry_of (meant.list_entry phrase.now i) (list_of case.now rel i)) insts.now) }
{
    let mut rest = insts;
    while let Some((inst, later)) = front(rest) {
        add_list(alloc, case, rel, phrase, inst, out)?;
        rest = later;
    }
    Ok(())
}

/// Adds the lists of a relation, unless it is declared with `every`.
fn add_relation(
    alloc: Global,
    model: &Model,
    case: &Case,
    order: &[(InstanceId, InstanceId)],
    rel: RelId,
    out: &mut Vec<Json>,
) -> Result<(), NoMemory>
    requires declared { HasRelation model.now rel }
    requires order { order.now ≡ case.now.live }
    ensures { OnOk result (map view out.new.items ≡ map view out.old.items ++ lists_told model.now case.now rel.0) }
{
    let relation = relation_of(model, rel);
    if relation.every {
        return Ok(());
    }
    let insts = members_of(alloc, relation.source.0, order)?;
    add_lists(alloc, case, rel, &relation.phrase, &insts, out)
}

/// All known lists of relations that aren't declared with `every`.
pub(crate) fn lists(
    alloc: Global,
    model: &Model,
    case: &Case,
    order: &[(InstanceId, InstanceId)],
) -> Result<Vec<Json>, NoMemory>
    requires { order.now ≡ case.now.live }
    ensures { IfOk result (λ v. map view v.items ≡ told_upto model.now case.now (length model.now.relations)) }
{
    let mut out = Vec::new(alloc);
    for n in 0..model.relation_count() {
        add_relation(alloc, model, case, order, RelId(n), &mut out)?;
    }
    Ok(out)
}
