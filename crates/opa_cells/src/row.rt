// The cells of one number: one of them at hand, and the others.
ghost use Rattle.std.specs.Prelude.{◌≡◌, map as items, IfOk, OnOk, OnErr, is_some, not};
ghost use Rattle.std.specs.Option.{option_copied, option_map};
ghost use Rattle.std.specs.FinMap as map;
ghost use Rattle.opa_cells.specs.Rows.{kept_if, holds, without, one_kept, seen_in};
ghost use Rattle.opa_cells.specs.declared.instance.InstanceId.{InstanceId as InstanceView};

use crate::cells::Copies;
use crate::instance::InstanceId;
use crate::keeps::Keeps;
use crate::others::Others;
use opa_io::NoMemory;
use std::alloc::Global;
use std::collections::BTreeMap;
use std::marker::Model;

/// The cells of a number. One is found without a hash, and takes no memory of its own: most numbers have only that one.
#[derive(Drop)]
pub(crate) struct Row<V> {
    pub(crate) one: Option<(InstanceId, V)>,
    pub(crate) others: Others<V>,
}

impl<V> Model for Row<V> {
    ghost use Rattle.std.specs.FinMap as map;
    ghost use Rattle.opa_cells.specs.Instances.{instance_cmp, coded_instance};
    ghost use Rattle.opa_cells.specs.Rows.{with_one};

    ghost Value = { map.FinMap instance_cmp V };

    ghost coded = { map.code coded_instance V.code };

    ghost view = { λ r. with_one r.one r.others };
}

impl<V> Row<V> {
    pub(crate) fn new(alloc: Global) -> Row<V>
        ensures { result ≡ map.empty }
    {
        Row {
            one: None,
            others: Others::new(alloc),
        }
    }

    pub(crate) fn get(&self, inst: &InstanceId) -> Option<&V>
        ensures { option_copied result ≡ map.get self.now inst.now }
    {
        if is_held(&self.one, inst) {
            held(&self.one)
        } else {
            self.others.get(inst)
        }
    }

    /// How many cells there are.
    pub(crate) fn len(&self) -> u64
        ensures { result ≡ map.len self.now }
    {
        match &self.one {
            None => self.others.len(),
            Some((inst, _)) => {
                if self.others.get(inst).is_some() {
                    self.others.len()
                } else {
                    self.others.len() + 1
                }
            }
        }
    }
}

/// Whether there is a cell and it is of the instance.
pub(crate) fn is_held<V>(one: &Option<(InstanceId, V)>, inst: &InstanceId) -> bool
    ensures { result ≡ holds one.now inst.now }
{
    match one {
        Some((first, _)) => inst.equals(first),
        None => false,
    }
}

fn held<V>(one: &Option<(InstanceId, V)>) -> Option<&V>
    ensures { option_copied result ≡ option_map (λ e. e.1) one.now }
{
    match one {
        Some((_, value)) => Some(value),
        None => None,
    }
}

impl<V: Drop> Row<V> {
    /// Whether the cell is new.
    pub(crate) fn insert(&mut self, inst: InstanceId, value: V) -> Result<bool, NoMemory>
        ensures new { IfOk result (λ new. new ≡ not (is_some (map.get self.old inst))) }
        ensures ok { OnOk result (self.new ≡ map.insert self.old inst value) }
        ensures err { OnErr result (self.new ≡ self.old) }
    {
        if is_held(&self.one, &inst) {
            self.one = Some((inst, value));
            return Ok(false);
        }
        if self.one.is_none() {
            let was = self.others.remove(&inst);
            self.one = Some((inst, value));
            return Ok(!was);
        }
        self.others.insert(inst, value)
    }

    /// Whether there was a cell.
    pub(crate) fn remove(&mut self, inst: &InstanceId) -> bool
        ensures was { result ≡ is_some (map.get self.old inst.now) }
        ensures removed { self.new ≡ map.remove self.old inst.now }
    {
        if is_held(&self.one, inst) {
            self.one = None;
            self.others.remove(inst);
            return true;
        }
        self.others.remove(inst)
    }

    /// Takes out each cell that doesn't stay. It takes no memory.
    pub(crate) fn retain<K: Keeps<V>>(&mut self, number: u32, keeper: &K)
        ensures { (i : InstanceView) → map.get self.new i ≡ kept_if (K.keeps keeper.now number i) (map.get self.old i) }
    {
        let one = self.one.take();
        take_out(&mut self.others, &one);
        self.others.retain(number, keeper);
        let kept = kept(one, number, keeper);
        let _none = std::mem::replace(&mut self.one, kept);
    }
}

/// Takes the instance of a cell out of the others.
fn take_out<V: Drop>(others: &mut Others<V>, one: &Option<(InstanceId, V)>)
    ensures { others.new ≡ without others.old one.now }
{
    match one {
        Some((inst, _)) => {
            others.remove(inst);
        }
        None => {}
    }
}

/// The cell, if it stays.
fn kept<V: Drop, K: Keeps<V>>(
    one: Option<(InstanceId, V)>,
    number: u32,
    keeper: &K,
) -> Option<(InstanceId, V)>
    ensures { result ≡ one_kept (K.keeps keeper.now number) one }
{
    match one {
        Some((inst, value)) => {
            if keeper.keeps(number, &inst, &value) {
                Some((inst, value))
            } else {
                None
            }
        }
        None => None,
    }
}

impl<V: Drop> Row<V> {
    /// An equal row.
    pub(crate) fn copy<C: Copies<V>>(&self, alloc: Global, copier: &C) -> Result<Row<V>, NoMemory>
        ensures { IfOk result (λ row. row ≡ self.now) }
    {
        let one = copy_one(alloc, &self.one, copier)?;
        let others = self.others.copy(alloc, copier)?;
        Ok(Row { one, others })
    }
}

/// An equal cell, if there is one.
fn copy_one<V: Drop, C: Copies<V>>(
    alloc: Global,
    one: &Option<(InstanceId, V)>,
    copier: &C,
) -> Result<Option<(InstanceId, V)>, NoMemory>
    ensures { IfOk result (λ copied. copied ≡ one.now) }
{
    match one {
        Some((inst, value)) => {
            let key = inst.copy(alloc)?;
            let value = copier.copy(alloc, value)?;
            Ok(Some((key, value)))
        }
        None => Ok(None),
    }
}

impl<V> Row<V> {
    /// The cells in order of their instances.
    pub(crate) fn in_order(&self, alloc: Global) -> Result<BTreeMap<&InstanceId, &V>, NoMemory>
        ensures { IfOk result (λ tree. items seen_in tree.entries ≡ map.entries self.now) }
    {
        let mut tree = self.others.in_order(alloc)?;
        match &self.one {
            None => Ok(tree),
            Some((inst, value)) => {
                tree.insert(inst, value)?;
                Ok(tree)
            }
        }
    }
}
