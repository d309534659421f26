// A finite map from names.
ghost use Rattle.std.specs.Prelude.{◌≡◌, ◌<◌, ◌^◌, is_some, OnOk, OnErr};
ghost use Rattle.std.specs.FinMap as map;

use opa_io::{Boxed, NoMemory, Txt};
use std::alloc::Global;
use std::collections::BTreeMap;
use std::marker::Model;

/// What stands under names. The tree shifts its entries at each change, so that they are to be small.
#[derive(Drop)]
pub struct Named<V> {
    entries: BTreeMap<Txt, Boxed<V>>,
}

impl<V> Model for Named<V> {
    ghost use Rattle.std.specs.FinMap as map;
    ghost use Rattle.std.specs.Coded.{coded_list, coded_ℕ};
    ghost use Rattle.std.specs.Ordering.{nat_cmp};
    ghost use Rattle.std.specs.Cmp.Lexicographic.{slice_cmp};

    ghost Value = { map.FinMap (slice_cmp nat_cmp) V };

    ghost coded = { map.code (coded_list coded_ℕ) V.code };

    ghost view = { λ n. map.from_entries n.entries.entries };
}

impl<V> Named<V> {
    pub fn new(alloc: Global) -> Named<V>
        ensures { result ≡ map.empty }
    {
        Named {
            entries: BTreeMap::new(alloc),
        }
    }

    /// How many names there are.
    pub fn len(&self) -> usize
        ensures len { result ≡ map.len self.now }
        ensures small { result < 2 ^ 63 }
    {
        self.entries.len()
    }

    /// Whether something stands under a name.
    pub fn has(&self, name: &Txt) -> bool
        ensures { result ≡ is_some (map.get self.now name.now) }
    {
        self.entries.contains_key(name)
    }
}

impl<V: Drop> Named<V> {
    /// Puts a value under a name.
    pub fn insert(&mut self, alloc: Global, name: Txt, value: V) -> Result<(), NoMemory>
        ensures ok { OnOk result (self.new ≡ map.insert self.old name value) }
        ensures err { OnErr result (self.new ≡ self.old) }
    {
        let boxed = Boxed::new(alloc, value)?;
        match self.entries.insert(name, boxed) {
            Ok(_) => Ok(()),
            Err(_) => Err(NoMemory),
        }
    }

    /// Takes out what stands under a name.
    pub fn take(&mut self, name: &Txt) -> Option<V>
        ensures value { result ≡ map.get self.old name.now }
        ensures rest { self.new ≡ map.remove self.old name.now }
    {
        let boxed = self.entries.remove(name)?;
        Some(boxed.into_inner())
    }
}
