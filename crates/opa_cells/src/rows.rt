ghost use Rattle.std.specs.Prelude.{map as items, ◌≡◌, ◌<◌, ◌^◌, ◌++◌, length, IfOk, OnOk, OnErr, is_some, IsNone, Some, None, not, true, [], ℕ, Bool};
ghost use Rattle.std.specs.Option.{option_copied};
ghost use Rattle.std.specs.FinMap as map;
ghost use Rattle.std.specs.BTreeMap.{is_at};
ghost use Rattle.std.specs.Map.{lookup};
ghost use Rattle.std.specs.Ordering.{nat_cmp};
ghost use Rattle.opa_cells.specs.Rows.{with_rows, kept_if, row_entries, all_entries, insert_each, tree_map, by_number, cells_in, cells_at, seen, seen_in};
ghost use Rattle.opa_cells.specs.declared.instance.InstanceId.{InstanceId as InstanceView};

use crate::cells::Copies;
use crate::instance::InstanceId;
use crate::keeps::Keeps;
use crate::row::Row;
use opa_io::NoMemory;
use std::alloc::Global;
use std::collections::{BTreeMap, HashMap};
use std::marker::Model;

/// A finite map from pairs of a number and an instance, kept as a row for each number, found by its hash.
#[derive(Drop)]
pub(crate) struct Rows<V> {
    alloc: Global,
    pub(crate) rows: HashMap<u32, Row<V>>,
}

impl<V> Model for Rows<V> {
    ghost use Rattle.std.specs.FinMap as map;
    ghost use Rattle.opa_cells.specs.Keys.{cell_cmp, coded_key};
    ghost use Rattle.opa_cells.specs.Rows.{with_rows};

    ghost Value = { map.FinMap cell_cmp V };

    ghost coded = { map.code coded_key V.code };

    ghost view = { λ t. with_rows t.rows.entries };
}

impl<V> Rows<V> {
    pub(crate) fn new(alloc: Global) -> Rows<V>
        ensures { result ≡ map.empty }
    {
        Rows {
            alloc,
            rows: HashMap::new(alloc),
        }
    }

    pub(crate) fn get(&self, number: u32, inst: &InstanceId) -> Option<&V>
        ensures { option_copied result ≡ map.get self.now (number, inst.now) }
    {
        match self.rows.get(&number) {
            Some(row) => row.get(inst),
            None => None,
        }
    }
}

impl<V: Drop> Rows<V> {
    /// Whether the cell is new.
    pub(crate) fn insert(
        &mut self,
        number: u32,
        inst: InstanceId,
        value: V,
    ) -> Result<bool, NoMemory>
        ensures new { IfOk result (λ new. new ≡ not (is_some (map.get self.old (number, inst)))) }
        ensures ok { OnOk result (self.new ≡ map.insert self.old (number, inst) value) }
        ensures err { OnErr result (self.new ≡ self.old) }
    {
        let alloc = self.alloc;
        match self.rows.get_mut(&number) {
            Some(row) => row.insert(inst, value),
            None => put_row(alloc, &mut self.rows, number, inst, value),
        }
    }

    /// Whether there was a cell.
    pub(crate) fn remove(&mut self, number: u32, inst: &InstanceId) -> bool
        ensures was { result ≡ is_some (map.get self.old (number, inst.now)) }
        ensures removed { self.new ≡ map.remove self.old (number, inst.now) }
    {
        match self.rows.get_mut(&number) {
            Some(row) => row.remove(inst),
            None => false,
        }
    }
}

/// Inserts a row with one cell, at a number that has none.
fn put_row<V: Drop>(
    alloc: Global,
    rows: &mut HashMap<u32, Row<V>>,
    number: u32,
    inst: InstanceId,
    value: V,
) -> Result<bool, NoMemory>
    requires { IsNone (lookup (is_at (nat_cmp number)) rows.old.entries) }
    ensures new { IfOk result (λ new. new ≡ true) }
    ensures ok { OnOk result (with_rows rows.new.entries ≡ map.insert (with_rows rows.old.entries) (number, inst) value) }
    ensures err { OnErr result (rows.new.entries ≡ rows.old.entries) }
{
    let row = one_cell(alloc, inst, value)?;
    match rows.insert(number, row) {
        Ok(_) => Ok(true),
        Err(_) => Err(NoMemory),
    }
}

/// A row with one cell.
fn one_cell<V: Drop>(alloc: Global, inst: InstanceId, value: V) -> Result<Row<V>, NoMemory>
    ensures { IfOk result (λ row. row ≡ map.insert map.empty inst value) }
{
    let mut row = Row::new(alloc);
    row.insert(inst, value)?;
    Ok(row)
}

impl<V: Drop> Rows<V> {
    /// Takes out each cell that doesn't stay. It takes no memory.
    pub(crate) fn retain<K: Keeps<V>>(&mut self, keeper: &K)
        ensures { (n : ℕ) (i : InstanceView) → map.get self.new (n, i) ≡ kept_if (K.keeps keeper.now n i) (map.get self.old (n, i)) }
    {
        self.rows.retain(|number, row| {
            row.retain(*number, keeper);
            true
        });
    }
}

impl<V: Drop> Rows<V> {
    /// An equal map. Its rows are copied as they are found, since a hash needs no order.
    pub(crate) fn copy<C: Copies<V>>(&self, alloc: Global, copier: &C) -> Result<Rows<V>, NoMemory>
        ensures { IfOk result (λ rows. rows ≡ self.now) }
    {
        let rows = copy_rows(alloc, &self.rows, copier)?;
        Ok(Rows { alloc, rows })
    }
}

fn copy_rows<V: Drop, C: Copies<V>>(
    alloc: Global,
    rows: &HashMap<u32, Row<V>>,
    copier: &C,
) -> Result<HashMap<u32, Row<V>>, NoMemory>
    ensures { IfOk result (λ copied. with_rows copied.entries ≡ with_rows rows.now.entries) }
{
    let len = rows.len();
    let mut copied = with_room(alloc, len)?;
    copy_each(alloc, &mut copied, rows, copier)?;
    Ok(copied)
}

/// No rows, and room for some.
fn with_room<V>(alloc: Global, rows: usize) -> Result<HashMap<u32, Row<V>>, NoMemory>
    ensures { IfOk result (λ rows. rows.entries ≡ []) }
{
    match HashMap::with_capacity(alloc, rows) {
        Ok(rows) => Ok(rows),
        Err(_) => Err(NoMemory),
    }
}

/// Inserts copies of rows, one after another.
fn copy_each<V: Drop, C: Copies<V>>(
    alloc: Global,
    copied: &mut HashMap<u32, Row<V>>,
    rows: &HashMap<u32, Row<V>>,
    copier: &C,
) -> Result<(), NoMemory>
    ensures { OnOk result (by_number copied.new.entries ≡ insert_each (by_number copied.old.entries) rows.now.entries) }
{
    for (number, row) in rows {
        let row = row.copy(alloc, copier)?;
        put(copied, *number, row)?;
    }
    Ok(())
}

fn put<V: Drop>(rows: &mut HashMap<u32, Row<V>>, number: u32, row: Row<V>) -> Result<(), NoMemory>
    ensures { OnOk result (by_number rows.new.entries ≡ map.insert (by_number rows.old.entries) number row) }
{
    match rows.insert(number, row) {
        Ok(_) => Ok(()),
        Err(_) => Err(NoMemory),
    }
}

impl<V> Rows<V> {
    /// How many cells there are.
    pub(crate) fn counted(&self) -> u64
        ensures { map.len self.now < 2 ^ 64 → result ≡ map.len self.now }
    {
        let _rows = self.rows.len();
        count(&self.rows)
    }

    /// How many cells there are at a number.
    pub(crate) fn len_of(&self, number: u32) -> u64
        ensures { result ≡ cells_at self.now number }
    {
        let row = self.rows.get(&number);
        match row {
            Some(row) => row.len(),
            None => 0,
        }
    }

    /// The rows in order of their numbers.
    fn in_order(&self, alloc: Global) -> Result<BTreeMap<&u32, &Row<V>>, NoMemory>
        ensures { IfOk result (λ tree. all_entries (items seen_in tree.entries) ≡ map.entries self.now) }
    {
        let _rows = self.rows.len();
        let mut tree = BTreeMap::new(alloc);
        add_rows(&mut tree, &self.rows)?;
        let _count = tree.len();
        Ok(tree)
    }

    /// The cells in order of their keys.
    pub(crate) fn each(&self, alloc: Global) -> Result<Vec<(u32, &InstanceId, &V)>, NoMemory>
        ensures { IfOk result (λ cells. items seen cells.items ≡ map.entries self.now) }
    {
        let rows = self.in_order(alloc)?;
        let cells = walk(alloc, &rows)?;
        Ok(cells)
    }
}

fn count<V>(rows: &HashMap<u32, Row<V>>) -> u64
    ensures { cells_in rows.now.entries < 2 ^ 64 → result ≡ cells_in rows.now.entries }
{
    let mut count: u64 = 0;
    for (_, row) in rows {
        count = count.saturating_add(row.len());
    }
    count
}

fn add_rows<'a, V>(
    tree: &mut BTreeMap<&'a u32, &'a Row<V>>,
    rows: &'a HashMap<u32, Row<V>>,
) -> Result<(), NoMemory>
    ensures { OnOk result (tree_map nat_cmp tree.new.entries ≡ insert_each (tree_map nat_cmp tree.old.entries) rows.now.entries) }
{
    for (number, row) in rows {
        tree.insert(number, row)?;
    }
    Ok(())
}

fn walk<'a, V>(
    alloc: Global,
    rows: &BTreeMap<&'a u32, &'a Row<V>>,
) -> Result<Vec<(u32, &'a InstanceId, &'a V)>, NoMemory>
    ensures { IfOk result (λ cells. items seen cells.items ≡ all_entries (items seen_in rows.now.entries)) }
{
    let mut cells = Vec::new(alloc);
    for (number, row) in rows {
        add_row(alloc, **number, row, &mut cells)?;
    }
    Ok(cells)
}

/// Adds the cells of a row at the end.
fn add_row<'a, V>(
    alloc: Global,
    number: u32,
    row: &'a Row<V>,
    cells: &mut Vec<(u32, &'a InstanceId, &'a V)>,
) -> Result<(), NoMemory>
    ensures { OnOk result (items seen cells.new.items ≡ items seen cells.old.items ++ row_entries number (map.entries row.now)) }
{
    let tree = row.in_order(alloc)?;
    add_cells(number, &tree, cells)?;
    Ok(())
}

fn add_cells<'a, V>(
    number: u32,
    tree: &BTreeMap<&'a InstanceId, &'a V>,
    cells: &mut Vec<(u32, &'a InstanceId, &'a V)>,
) -> Result<(), NoMemory>
    ensures { OnOk result (items seen cells.new.items ≡ items seen cells.old.items ++ row_entries number (items seen_in tree.now.entries)) }
{
    for (inst, value) in tree {
        cells.push((number, *inst, *value))?;
    }
    Ok(())
}
