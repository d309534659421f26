// What is told by a report, as trees are seen over it.
ghost use Rattle.std.specs.Prelude.{◌≡◌, [], Some, unwrap_or, IfOk};
ghost use Rattle.std.specs.FinMap.{get};
ghost use Rattle.opa_date.specs.declared.TheConstants.{DAYS};
ghost use Rattle.opa_line.specs.Lines.{StandsFor};
ghost use Rattle.opa_verify.specs.Listed.Shades.{shade_of};
ghost use Rattle.opa_verify.specs.Listed.Walks.{names_or};
ghost use Rattle.opa_verify.specs.Support.Ledgers.{list_told, told_listing};

use crate::listed::{Containers, Listed, Run, Shade, Sheet, listed_line, place_by};
use crate::support::ledger::{Told, copied};
use opa_cells::InstanceId;
use opa_io::{List, NoMemory};
use opa_line::Line;
use opa_mean::{owner_of, source_of, target_of};
use opa_model::{AttrId, Model, RelId};
use opa_value::Value;
use std::alloc::Global;

/// What is told, beside what is declared.
#[derive(Clone, Copy)]
pub(crate) struct Page<'a> {
    pub(crate) model: &'a Model,
    pub(crate) told: &'a Told,
}

impl<'a> Containers for Page<'a> {
    ghost use Rattle.opa_verify.specs.Support.Ledgers.{told_listing};

    ghost containers = { λ p. (told_listing p.told.now).container };

    fn container(&self, inst: &InstanceId) -> Option<&InstanceId> {
        self.told.containers.get(0, inst)
    }
}

impl<'a> Sheet for Page<'a> {
    ghost use Rattle.opa_case.specs.Shapes.{shape_of};
    ghost use Rattle.opa_verify.specs.Support.Ledgers.{told_listing};

    ghost shape = { λ p. shape_of p.model.now };

    ghost listing = { λ p. told_listing p.told.now };

    fn attribute(
        &self,
        alloc: Global,
        attr: AttrId,
        enclosing: &[InstanceId],
    ) -> Result<Line<Shade>, NoMemory> {
        match place_by(self, enclosing, owner_of(self.model, attr)) {
            None => Line::constant(alloc, Shade::gone()),
            Some(None) => Line::constant(alloc, Shade::there(Value::Uncertain)),
            Some(Some(inst)) => line_at(alloc, self.told, attr, inst),
        }
    }

    fn members(
        &self,
        alloc: Global,
        rel: RelId,
        enclosing: &[InstanceId],
    ) -> Result<Listed, NoMemory> {
        match place_by(self, enclosing, source_of(self.model, rel)) {
            None => Ok(Listed::Missing),
            Some(None) => Ok(Listed::Nowhere),
            Some(Some(inst)) => list_at(alloc, self.told, rel, inst),
        }
    }

    fn target(&self, rel: RelId) -> u32 {
        target_of(self.model, rel)
    }

    fn source(&self, rel: RelId) -> u32 {
        source_of(self.model, rel)
    }

    fn owner(&self, attr: AttrId) -> u32 {
        owner_of(self.model, attr)
    }

    fn place<'b>(
        &'b self,
        enclosing: &'b [InstanceId],
        entity: u32,
    ) -> Option<Option<&'b InstanceId>> {
        place_by(self, enclosing, entity)
    }
}

/// What is told of a point over time.
fn line_at(
    alloc: Global,
    told: &Told,
    attr: AttrId,
    inst: &InstanceId,
) -> Result<Line<Shade>, NoMemory>
    ensures { IfOk result (StandsFor DAYS (λ d. shade_of ((told_listing told.now).value attr inst.now d))) }
{
    let runs = runs_at(told, attr, inst);
    let line = listed_line(alloc, runs)?;
    Ok(line)
}

fn runs_at<'a>(told: &'a Told, attr: AttrId, inst: &InstanceId) -> &'a [Run]
    ensures { result.now ≡ unwrap_or (get told.now.runs (attr.0, inst.now)) [] }
{
    match told.runs.get(attr.0, inst) {
        None => &[],
        Some(runs) => runs.as_slice(),
    }
}

/// What is told of a list.
fn list_at(alloc: Global, told: &Told, rel: RelId, inst: &InstanceId) -> Result<Listed, NoMemory>
    ensures { IfOk result (λ l. l ≡ names_or ((told_listing told.now).members rel inst.now)) }
{
    match told.lists.get(rel.0, inst) {
        None => Ok(Listed::Missing),
        Some(list) => same_list(alloc, list),
    }
}

fn same_list(alloc: Global, list: &Listed) -> Result<Listed, NoMemory>
    ensures { IfOk result (λ l. l ≡ names_or (list_told (Some list.now))) }
{
    match list {
        Listed::Missing => Ok(Listed::Missing),
        Listed::Nowhere => Ok(Listed::Missing),
        Listed::Unknown => Ok(Listed::Unknown),
        Listed::Known(names) => Ok(Listed::Known(copied(alloc, names.as_slice())?)),
    }
}
