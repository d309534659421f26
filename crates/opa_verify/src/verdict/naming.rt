// The lines of a report that printed lines are over a rulebase.
ghost use Rattle.std.specs.Prelude.{◌≡◌, IfOk};
ghost use Rattle.std.specs.Prelude as prelude;
ghost use Rattle.std.specs.List.{AllByRecursion};
ghost use Rattle.opa_case.specs.Shapes.{relation_or};
ghost use Rattle.opa_verify.specs.Spelling.Dated.{IsDated};
ghost use Rattle.opa_text.specs.Texts.{IsOfCalendar};
ghost use Rattle.opa_verify.specs.Verdict.Naming as meant;
ghost use Rattle.opa_verify.specs.Verdict.Named.{AreNamedUpTo};

use crate::spelling::{Origin, Printed, Spot};
use crate::verdict::shown::is_printed_so;
use opa_cells::InstanceId;
use opa_io::{List, NoMemory, Txt, front};
use opa_mean::{owner_of, source_of, target_of};
use opa_model::{AttrId, EntityId, Kind, Model, RelId};
use opa_report::ReportLine;
use opa_tree::Rulebase;
use opa_value::Value;
use std::alloc::Global;

/// All printed lines as lines of a report, or the place of the first that is none.
#[derive(Debug, Drop)]
pub(crate) enum Naming {
    All(List<ReportLine>),
    Fault(usize),
}

pub(crate) fn lines_named(
    alloc: Global,
    base: &Rulebase,
    printed: &[Printed],
) -> Result<Naming, NoMemory>
    requires { AllByRecursion IsDated printed.now }
    ensures { IfOk result (AreNamedUpTo base.now printed.now) }
{
    let mut lines = List::new(alloc);
    let mut place = 0;
    let mut rest = printed;
    while let Some((line, later)) = front(rest) {
        match line_named(alloc, base, line)? {
            None => return Ok(Naming::Fault(place)),
            Some(found) => lines.push(found)?,
        }
        place += 1;
        rest = later;
    }
    Ok(Naming::All(lines))
}

/// The line of a report that a printed line is.
fn line_named(
    alloc: Global,
    base: &Rulebase,
    printed: &Printed,
) -> Result<Option<ReportLine>, NoMemory>
    requires { IsDated printed.now }
    ensures { IfOk result (λ o. o ≡ meant.named_line base.now printed.now) }
{
    match printed {
        Printed::Point {
            spot,
            first,
            last,
            kind,
            value,
            origin,
        } => point_named(alloc, base, spot, *first, *last, *kind, value, origin),
        Printed::Members { spot, names } => members_named(alloc, &base.model, spot, names),
        Printed::Member { spot, name } => member_named(alloc, &base.model, spot, name),
    }
}

/// The instance of an entity with a name, which the global one lacks.
fn instance_for(
    alloc: Global,
    entity: u32,
    name: &Option<Txt>,
) -> Result<Option<InstanceId>, NoMemory>
    ensures { IfOk result (λ o. o ≡ meant.instance_for entity name.now) }
{
    match name {
        None => global_for(alloc, entity),
        Some(name) => named_for(alloc, entity, name),
    }
}

fn global_for(alloc: Global, entity: u32) -> Result<Option<InstanceId>, NoMemory>
    ensures { IfOk result (λ o. o ≡ meant.instance_for entity prelude.None) }
{
    if entity == 0 {
        Ok(Some(InstanceId::global(alloc)?))
    } else {
        Ok(None)
    }
}

fn named_for(alloc: Global, entity: u32, name: &Txt) -> Result<Option<InstanceId>, NoMemory>
    ensures { IfOk result (λ o. o ≡ meant.instance_for entity (prelude.Some name.now)) }
{
    if entity == 0 {
        Ok(None)
    } else {
        let name = name.copy(alloc)?;
        let entity = EntityId(entity);
        Ok(Some(InstanceId { entity, name }))
    }
}

fn point_at(
    alloc: Global,
    model: &Model,
    attr: AttrId,
    spot: &Spot,
) -> Result<Option<InstanceId>, NoMemory>
    ensures { IfOk result (λ o. o ≡ meant.point_at model.now attr spot.now) }
{
    instance_for(alloc, owner_of(model, attr), &spot.name)
}

fn list_at(
    alloc: Global,
    model: &Model,
    rel: RelId,
    spot: &Spot,
) -> Result<Option<InstanceId>, NoMemory>
    ensures { IfOk result (λ o. o ≡ meant.list_at model.now rel spot.now) }
{
    instance_for(alloc, source_of(model, rel), &spot.name)
}

/// The point that is asked of.
pub(crate) fn asked_named(
    alloc: Global,
    base: &Rulebase,
    spot: &Spot,
) -> Result<Option<(AttrId, InstanceId)>, NoMemory>
    ensures { IfOk result (λ o. o ≡ meant.asked_point base.now spot.now) }
{
    match base.model.find_attribute(spot.phrase.as_str()) {
        None => Ok(None),
        Some(attr) => match point_at(alloc, &base.model, attr, spot)? {
            None => Ok(None),
            Some(inst) => Ok(Some((attr, inst))),
        },
    }
}

fn point_named(
    alloc: Global,
    base: &Rulebase,
    spot: &Spot,
    first: u32,
    last: u32,
    kind: Kind,
    value: &Value,
    origin: &Origin,
) -> Result<Option<ReportLine>, NoMemory>
    requires { IsOfCalendar value.now }
    ensures { IfOk result (λ o. o ≡ meant.named_point base.now spot.now first last kind value.now origin.now) }
{
    match asked_named(alloc, base, spot)? {
        None => Ok(None),
        Some((attr, inst)) => {
            if !is_printed_so(alloc, base, attr, kind, value, origin)? {
                return Ok(None);
            }
            let value = value.copy(alloc)?;
            Ok(Some(ReportLine::Point {
                attr,
                inst,
                first,
                last,
                value,
            }))
        }
    }
}

fn members_named(
    alloc: Global,
    model: &Model,
    spot: &Spot,
    names: &Option<List<Txt>>,
) -> Result<Option<ReportLine>, NoMemory>
    ensures { IfOk result (λ o. o ≡ meant.named_members model.now spot.now names.now) }
{
    match model.find_relation(spot.phrase.as_str()) {
        None => Ok(None),
        Some(rel) => match list_at(alloc, model, rel, spot)? {
            None => Ok(None),
            Some(inst) => {
                let names = names_copy(alloc, names)?;
                Ok(Some(ReportLine::Members { rel, inst, names }))
            }
        },
    }
}

fn names_copy(alloc: Global, names: &Option<List<Txt>>) -> Result<Option<List<Txt>>, NoMemory>
    ensures { IfOk result (λ o. o ≡ names.now) }
{
    match names {
        None => Ok(None),
        Some(names) => Ok(Some(copied(alloc, names.as_slice())?)),
    }
}

fn copied(alloc: Global, names: &[Txt]) -> Result<List<Txt>, NoMemory>
    ensures { IfOk result (λ all. all ≡ names.now) }
{
    let mut all = List::new(alloc);
    for name in names {
        all.push(name.copy(alloc)?)?;
    }
    Ok(all)
}

fn member_named(
    alloc: Global,
    model: &Model,
    spot: &Spot,
    name: &Txt,
) -> Result<Option<ReportLine>, NoMemory>
    ensures { IfOk result (λ o. o ≡ meant.named_member model.now spot.now name.now) }
{
    match model.find_relation(spot.phrase.as_str()) {
        None => Ok(None),
        Some(rel) => member_of(alloc, model, rel, spot, name),
    }
}

fn member_of(
    alloc: Global,
    model: &Model,
    rel: RelId,
    spot: &Spot,
    name: &Txt,
) -> Result<Option<ReportLine>, NoMemory>
    ensures { IfOk result (λ o. o ≡ meant.member_line model.now rel spot.now name.now) }
{
    if !contains(model, rel) {
        return Ok(None);
    }
    match list_at(alloc, model, rel, spot)? {
        None => Ok(None),
        Some(container) => {
            let name = name.copy(alloc)?;
            let entity = EntityId(target_of(model, rel));
            Ok(Some(ReportLine::Member {
                rel,
                container,
                inst: InstanceId { entity, name },
            }))
        }
    }
}

fn contains(model: &Model, rel: RelId) -> bool
    ensures { result ≡ (relation_or model.now rel).contains }
{
    if rel.0 < model.relation_count() {
        model.relation(rel).contains
    } else {
        false
    }
}
