// Finite maps from pairs of a number and an instance, with a count.
ghost use Rattle.std.specs.Prelude.{map as items, ◌≡◌, OnOk, OnErr, IfOk, ℕ, Bool};
ghost use Rattle.std.specs.Option.{option_copied};
ghost use Rattle.std.specs.FinMap as map;
ghost use Rattle.opa_cells.specs.Rows.{kept_if, cells_at, seen};
ghost use Rattle.opa_cells.specs.declared.instance.InstanceId.{InstanceId as InstanceView};

use crate::instance::InstanceId;
use crate::keeps::Keeps;
use crate::rows::Rows;
use opa_io::NoMemory;
use std::alloc::Global;
use std::marker::Model;

/// A finite map from pairs of a number and an instance. Look-ups take no walk over it.
#[derive(Drop)]
pub struct Cells<V> {
    pub(crate) rows: Rows<V>,
    count: u64,
}

impl<V> Model for Cells<V> {
    ghost use Rattle.std.specs.Prelude.{◌≡◌};
    ghost use Rattle.std.specs.FinMap as map;
    ghost use Rattle.opa_cells.specs.Keys.{cell_cmp, coded_key};

    ghost Value = { map.FinMap cell_cmp V };

    ghost coded = { map.code coded_key V.code };

    ghost view = { λ c. c.rows };

    ghost invariant = { λ c. c.count ≡ map.len c.rows };
}

impl<V> Cells<V> {
    pub fn new(alloc: Global) -> Cells<V>
        ensures { result ≡ map.empty }
    {
        Cells {
            rows: Rows::new(alloc),
            count: 0,
        }
    }

    pub fn get(&self, number: u32, inst: &InstanceId) -> Option<&V>
        ensures { option_copied result ≡ map.get self.now (number, inst.now) }
    {
        self.rows.get(number, inst)
    }

    /// The cells in order of their keys: by number, then by instance.
    pub fn each(&self, alloc: Global) -> Result<Vec<(u32, &InstanceId, &V)>, NoMemory>
        ensures { IfOk result (λ cells. items seen cells.items ≡ map.entries self.now) }
    {
        self.rows.each(alloc)
    }

    /// How many cells there are.
    pub fn len(&self) -> u64
        ensures { result ≡ map.len self.now }
    {
        self.count
    }

    /// How many cells there are at a number. It takes no walk over them.
    pub fn len_of(&self, number: u32) -> u64
        ensures { result ≡ cells_at self.now number }
    {
        self.rows.len_of(number)
    }
}

impl<V: Drop> Cells<V> {
    pub fn insert(&mut self, number: u32, inst: InstanceId, value: V) -> Result<(), NoMemory>
        ensures ok { OnOk result (self.new ≡ map.insert self.old (number, inst) value) }
        ensures err { OnErr result (self.new ≡ self.old) }
    {
        let more = self.count.checked_add(1).ok_or(NoMemory)?;
        if self.rows.insert(number, inst, value)? {
            self.count = more;
        }
        Ok(())
    }

    pub fn remove(&mut self, number: u32, inst: &InstanceId)
        ensures { self.new ≡ map.remove self.old (number, inst.now) }
    {
        if self.rows.remove(number, inst) {
            self.count -= 1;
        }
    }

    /// Takes out each cell that doesn't stay. It takes no memory.
    pub fn retain<K: Keeps<V>>(&mut self, keeper: &K)
        ensures { (n : ℕ) (i : InstanceView) → map.get self.new (n, i) ≡ kept_if (K.keeps keeper.now n i)
            (map.get self.old (n, i)) }
    {
        let _before = self.len();
        self.rows.retain(keeper);
        self.count = self.rows.counted();
    }
}

/// How a value is copied.
pub trait Copies<V> {
    fn copy(&self, alloc: Global, value: &V) -> Result<V, NoMemory>
        ensures { IfOk result (λ copied. copied ≡ value.now) };
}

impl<V: Drop> Cells<V> {
    /// An equal map.
    pub fn copy<C: Copies<V>>(&self, alloc: Global, copier: &C) -> Result<Cells<V>, NoMemory>
        ensures { IfOk result (λ cells. cells ≡ self.now) }
    {
        let rows = self.rows.copy(alloc, copier)?;
        Ok(Cells {
            rows,
            count: self.count,
        })
    }
}
