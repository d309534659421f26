// Cells of one number, found by hash.
ghost use Rattle.std.specs.Prelude.{◌≡◌, ◌<◌, ◌^◌, map as items, IfOk, OnOk, OnErr, is_some, not};
ghost use Rattle.std.specs.Option.{option_copied};
ghost use Rattle.std.specs.FinMap as map;
ghost use Rattle.opa_cells.specs.Instances.{instance_cmp};
ghost use Rattle.opa_cells.specs.Rows.{kept_if, insert_each, tree_map, seen_in};
ghost use Rattle.opa_cells.specs.declared.instance.InstanceId.{InstanceId as InstanceView};

use crate::cells::Copies;
use crate::instance::InstanceId;
use crate::keeps::Keeps;
use opa_io::NoMemory;
use std::alloc::Global;
use std::collections::{BTreeMap, HashMap};
use std::marker::Model;

/// Cells of a number, found by the hash of their instance.
#[derive(Drop)]
pub(crate) struct Others<V> {
    pub(crate) cells: HashMap<InstanceId, V>,
}

impl<V> Model for Others<V> {
    ghost use Rattle.std.specs.FinMap as map;
    ghost use Rattle.opa_cells.specs.Instances.{instance_cmp, coded_instance};

    ghost Value = { map.FinMap instance_cmp V };

    ghost coded = { map.code coded_instance V.code };

    ghost view = { λ r. map.from_entries r.cells.entries };
}

impl<V> Others<V> {
    pub(crate) fn new(alloc: Global) -> Others<V>
        ensures { result ≡ map.empty }
    {
        Others {
            cells: HashMap::new(alloc),
        }
    }

    pub(crate) fn get(&self, inst: &InstanceId) -> Option<&V>
        ensures { option_copied result ≡ map.get self.now inst.now }
    {
        self.cells.get(inst)
    }

    /// How many cells there are.
    pub(crate) fn len(&self) -> u64
        ensures len { result ≡ map.len self.now }
        ensures small { result < 2 ^ 63 }
    {
        self.cells.len() as u64
    }
}

impl<V: Drop> Others<V> {
    /// Whether the cell is new.
    pub(crate) fn insert(&mut self, inst: InstanceId, value: V) -> Result<bool, NoMemory>
        ensures new { IfOk result (λ new. new ≡ not (is_some (map.get self.old inst))) }
        ensures ok { OnOk result (self.new ≡ map.insert self.old inst value) }
        ensures err { OnErr result (self.new ≡ self.old) }
    {
        match self.cells.insert(inst, value) {
            Ok(old) => Ok(old.is_none()),
            Err(_) => Err(NoMemory),
        }
    }

    /// Whether there was a cell.
    pub(crate) fn remove(&mut self, inst: &InstanceId) -> bool
        ensures was { result ≡ is_some (map.get self.old inst.now) }
        ensures removed { self.new ≡ map.remove self.old inst.now }
    {
        self.cells.remove(inst).is_some()
    }

    /// Takes out each cell that doesn't stay. It takes no memory.
    pub(crate) fn retain<K: Keeps<V>>(&mut self, number: u32, keeper: &K)
        ensures { (i : InstanceView) → map.get self.new i ≡ kept_if (K.keeps keeper.now number i) (map.get self.old i) }
    {
        self.cells
            .retain(|inst, value| keeper.keeps(number, inst, value));
    }
}

impl<V: Drop> Others<V> {
    /// Equal cells. They are copied as they are found, since a hash needs no order.
    pub(crate) fn copy<C: Copies<V>>(
        &self,
        alloc: Global,
        copier: &C,
    ) -> Result<Others<V>, NoMemory>
        ensures { IfOk result (λ others. others ≡ self.now) }
    {
        let cells = self.cells.len();
        let mut copied = with_room(alloc, cells)?;
        copy_each(alloc, &mut copied, &self.cells, copier)?;
        Ok(copied)
    }
}

/// No cells, and room for some.
fn with_room<V>(alloc: Global, cells: usize) -> Result<Others<V>, NoMemory>
    ensures { IfOk result (λ others. others ≡ map.empty) }
{
    match HashMap::with_capacity(alloc, cells) {
        Ok(cells) => Ok(Others { cells }),
        Err(_) => Err(NoMemory),
    }
}

/// Inserts copies of cells, one after another.
fn copy_each<V: Drop, C: Copies<V>>(
    alloc: Global,
    copied: &mut Others<V>,
    cells: &HashMap<InstanceId, V>,
    copier: &C,
) -> Result<(), NoMemory>
    ensures { OnOk result (copied.new ≡ insert_each copied.old cells.now.entries) }
{
    for (inst, value) in cells {
        let key = inst.copy(alloc)?;
        let value = copier.copy(alloc, value)?;
        copied.insert(key, value)?;
    }
    Ok(())
}

impl<V> Others<V> {
    /// The cells in order of their instances.
    pub(crate) fn in_order(&self, alloc: Global) -> Result<BTreeMap<&InstanceId, &V>, NoMemory>
        ensures { IfOk result (λ tree. items seen_in tree.entries ≡ map.entries self.now) }
    {
        let _cells = self.cells.len();
        let mut tree = BTreeMap::new(alloc);
        add_each(&mut tree, &self.cells)?;
        let _count = tree.len();
        Ok(tree)
    }
}

fn add_each<'a, V>(
    tree: &mut BTreeMap<&'a InstanceId, &'a V>,
    cells: &'a HashMap<InstanceId, V>,
) -> Result<(), NoMemory>
    ensures { OnOk result (tree_map instance_cmp tree.new.entries ≡ insert_each (tree_map instance_cmp tree.old.entries) cells.now.entries) }
{
    for (inst, value) in cells {
        tree.insert(inst, value)?;
    }
    Ok(())
}
