// Which lists may be others where one is set or forgotten.
ghost use Rattle.std.specs.Prelude.{◌≡◌, ◌⊎◌, ◌||◌, ℕ, is_some, false, Contains, IfOk, OnOk};
ghost use Rattle.std.specs.List.{list_any};
ghost use Rattle.std.specs.FinMap as map;
ghost use Rattle.opa_cells.specs.declared.instance.InstanceId.{InstanceId as InstanceView};
ghost use Rattle.opa_case.specs.Listed.{is_list};
ghost use Rattle.opa_case.specs.Lost.{refers_to};
ghost use Rattle.opa_case.specs.Overlays.{relisted_case};
ghost use Rattle.opa_case.specs.Shapes.{shape_of};
ghost use Rattle.opa_case.specs.Steps.{rel as relation};
ghost use Rattle.opa_case.specs.Touched.{AreTouched, AddsKeys};

use crate::listed::Listed;
use crate::lists_naming::{add_key, add_naming};
use crate::relisted::Relisted;
use opa_cells::{Cells, InstanceId};
use opa_io::{List, NoMemory, Txt};
use opa_model::{Model, RelId};
use std::alloc::Global;

impl<'a> Relisted<'a> {
    /// The lists that may be others then, at instances that stay: the list itself, those of relations that are declared with
    /// `every` where they change, and the reference lists that name what goes. One may stand there twice. For each instance that
    /// goes it takes one look a relation, and it goes through no other lists.
    pub fn touched(&self, alloc: Global) -> Result<List<(RelId, InstanceId)>, NoMemory>
        ensures { IfOk result (λ touched. AreTouched self.now.case.now (relisted_case self.now) touched) }
    {
        let mut keys = List::new(alloc);
        add_key(alloc, self.rel.0, self.inst, &mut keys)?;
        self.add_every(alloc, &mut keys)?;
        add_naming_each(alloc, self.model, self.case.stored(), &self.went, &mut keys)?;
        Ok(keys)
    }

    /// Adds the lists of relations that are declared with `every`, where they change.
    fn add_every(&self, alloc: Global, keys: &mut List<(RelId, InstanceId)>) -> Result<(), NoMemory>
        ensures keeps { OnOk result (AddsKeys keys.old keys.new (λ _ _. false)) }
        ensures every { OnOk result ((q : ℕ) (j : InstanceView) → Contains keys.new (relation q, j) ⊎ (map.get (relisted_case self.now).every (q, j) ≡ map.get self.now.case.now.every (q, j))) }
    {
        match &self.every {
            Some(every) => {
                add_both(alloc, self.case.every(), every, keys)?;
                Ok(())
            }
            None => Ok(()),
        }
    }
}

/// Adds the lists that are known before or then.
fn add_both(
    alloc: Global,
    before: &Cells<List<Txt>>,
    then: &Cells<List<Txt>>,
    keys: &mut List<(RelId, InstanceId)>,
) -> Result<(), NoMemory>
    ensures { OnOk result (AddsKeys keys.old keys.new (λ q j. is_some (map.get before.now (q, j)) || is_some (map.get then.now (q, j)))) }
{
    add_known(alloc, before, keys)?;
    add_known(alloc, then, keys)?;
    Ok(())
}

/// Adds the lists that are known.
fn add_known(
    alloc: Global,
    lists: &Cells<List<Txt>>,
    keys: &mut List<(RelId, InstanceId)>,
) -> Result<(), NoMemory>
    ensures { OnOk result (AddsKeys keys.old keys.new (λ q j. is_some (map.get lists.now (q, j)))) }
{
    let cells = lists.each(alloc)?;
    add_cells(alloc, &cells, keys)?;
    Ok(())
}

fn add_cells(
    alloc: Global,
    cells: &[(u32, &InstanceId, &List<Txt>)],
    keys: &mut List<(RelId, InstanceId)>,
) -> Result<(), NoMemory>
    ensures { OnOk result (AddsKeys keys.old keys.new (λ q j. list_any (λ cell. is_list cell.0 cell.1.now q j) cells.now)) }
{
    for (number, inst, _) in cells {
        add_key(alloc, *number, inst, keys)?;
    }
    Ok(())
}

/// Adds the reference lists that name what goes.
fn add_naming_each(
    alloc: Global,
    model: &Model,
    lists: &Listed,
    gone: &[(InstanceId, InstanceId)],
    keys: &mut List<(RelId, InstanceId)>,
) -> Result<(), NoMemory>
    ensures { OnOk result (AddsKeys keys.old keys.new (λ q j. list_any (λ g. refers_to (shape_of model.now) g.0 q (map.get lists.now (q, j))) gone.now)) }
{
    for (inst, _) in gone {
        add_naming(alloc, model, lists, inst, keys)?;
    }
    Ok(())
}
