// The cells in the order in which they are found.
ghost use Rattle.std.specs.Prelude.{map as items, ◌≡◌, ◌∷◌, ◌++◌, [], IfOk, OnOk};
ghost use Rattle.opa_cells.specs.Rows.{row_entries, seen, without};
ghost use Rattle.opa_cells.specs.Unordered.{besides, AddsCells, AddsRow, AddsRows, AreCells};

use crate::cells::Cells;
use crate::instance::InstanceId;
use crate::others::Others;
use crate::row::{Row, is_held};
use crate::rows::Rows;
use opa_io::NoMemory;
use std::alloc::Global;
use std::collections::HashMap;

impl<V> Cells<V> {
    /// The cells in the order in which they are found: for who needs none, since it takes no sort.
    pub fn unordered(&self, alloc: Global) -> Result<Vec<(u32, &InstanceId, &V)>, NoMemory>
        ensures { IfOk result (λ cells. AreCells self.now (items seen cells.items)) }
    {
        let mut cells = Vec::new(alloc);
        self.rows.add_found(&mut cells)?;
        Ok(cells)
    }
}

impl<V> Rows<V> {
    /// Adds the cells.
    pub(crate) fn add_found<'a>(
        &'a self,
        cells: &mut Vec<(u32, &'a InstanceId, &'a V)>,
    ) -> Result<(), NoMemory>
        ensures { OnOk result (AddsCells self.entry.now (items seen cells.old.items) (items seen cells.new.items)) }
    {
        let _rows = self.rows.len();
        add_rows(&self.rows, cells)?;
        Ok(())
    }
}

fn add_rows<'a, V>(
    rows: &'a HashMap<u32, Row<V>>,
    cells: &mut Vec<(u32, &'a InstanceId, &'a V)>,
) -> Result<(), NoMemory>
    ensures { OnOk result (AddsRows rows.entry.now.entries (items seen cells.old.items) (items seen cells.new.items)) }
{
    for (number, row) in rows {
        row.add_found(*number, cells)?;
    }
    Ok(())
}

impl<V> Row<V> {
    /// Adds the cells of a number.
    pub(crate) fn add_found<'a>(
        &'a self,
        number: u32,
        cells: &mut Vec<(u32, &'a InstanceId, &'a V)>,
    ) -> Result<(), NoMemory>
        ensures { OnOk result (AddsRow number self.entry.now (items seen cells.old.items) (items seen cells.new.items)) }
    {
        self.others.add_found(number, &self.one, cells)?;
        match &self.one {
            Some((inst, value)) => {
                cells.push((number, inst, value))?;
                Ok(())
            }
            None => Ok(()),
        }
    }
}

impl<V> Others<V> {
    /// Adds the cells of a number, but that of an instance that another one stands for.
    fn add_found<'a>(
        &'a self,
        number: u32,
        one: &Option<(InstanceId, V)>,
        cells: &mut Vec<(u32, &'a InstanceId, &'a V)>,
    ) -> Result<(), NoMemory>
        ensures { OnOk result (AddsRow number (without self.entry.now one.now) (items seen cells.old.items) (items seen cells.new.items)) }
    {
        let _cells = self.cells.len();
        add_each(number, one, &self.cells, cells)?;
        Ok(())
    }
}

fn add_each<'a, V>(
    number: u32,
    one: &Option<(InstanceId, V)>,
    found: &'a HashMap<InstanceId, V>,
    cells: &mut Vec<(u32, &'a InstanceId, &'a V)>,
) -> Result<(), NoMemory>
    ensures { OnOk result (items seen cells.new.items ≡ items seen cells.old.items ++ row_entries number (besides one.now found.entry.now.entries)) }
{
    for (inst, value) in found {
        add_other(number, one, inst, value, cells)?;
    }
    Ok(())
}

fn add_other<'a, V>(
    number: u32,
    one: &Option<(InstanceId, V)>,
    inst: &'a InstanceId,
    value: &'a V,
    cells: &mut Vec<(u32, &'a InstanceId, &'a V)>,
) -> Result<(), NoMemory>
    ensures { OnOk result (items seen cells.new.items ≡ items seen cells.old.items ++ row_entries number (besides one.now ((inst.entry.now, value.entry.now) ∷ []))) }
{
    if is_held(one, inst) {
        return Ok(());
    }
    cells.push((number, inst, value))?;
    Ok(())
}
