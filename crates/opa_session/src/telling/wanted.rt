// Wanted instances.
ghost use Rattle.std.specs.Prelude.{◌≡◌, ◌≢◌, ◌||◌, ℕ, Bool, false, List as Seq, OnOk};
ghost use Rattle.opa_cells.specs.Instances.{is_same, named};
ghost use Rattle.opa_cells.specs.declared.instance.InstanceId.{InstanceId as InstanceView};
ghost use Rattle.opa_session.specs.Telling.Wanted.{has_name, has_wanted};

use opa_case::InstanceId;
use opa_io::{NoMemory, Txt};
use std::alloc::Global;
use std::collections::BTreeMap;

/// A set of instances, as a set of names for each entity: a name is looked up where it stands.
#[derive(Drop)]
pub(crate) struct Wanted {
    names: BTreeMap<u32, BTreeMap<Txt, ()>>,
}

impl Wanted {
    pub(crate) fn new(alloc: Global) -> Wanted
        ensures { (i : InstanceView) → has_wanted result i ≡ false }
    {
        Wanted {
            names: BTreeMap::new(alloc),
        }
    }

    /// Whether the instance of an entity with a name is wanted.
    pub(crate) fn has(&self, entity: u32, name: &Txt) -> bool
        ensures { result ≡ has_wanted self.now (named entity name.now) }
    {
        match self.names.get(&entity) {
            Some(names) => names.contains_key(name),
            None => false,
        }
    }

    pub(crate) fn insert(&mut self, alloc: Global, inst: &InstanceId) -> Result<(), NoMemory>
        ensures { OnOk result ((i : InstanceView) → has_wanted self.new i ≡ (is_same i inst.now || has_wanted self.old i)) }
    {
        let entity = inst.entity.0;
        let mut names = self.take_names(alloc, entity);
        let name = inst.name.copy(alloc)?;
        names.insert(name, ())?;
        self.names.insert(entity, names)?;
        Ok(())
    }

    /// Takes out the names of an entity.
    fn take_names(&mut self, alloc: Global, entity: u32) -> BTreeMap<Txt, ()>
        ensures taken { (n : Seq ℕ) → has_name result n ≡ has_wanted self.old (named entity n) }
        ensures others { (i : InstanceView) → i.entity.0 ≢ entity → has_wanted self.new i ≡ has_wanted self.old i }
    {
        match self.names.remove(&entity) {
            Some(names) => names,
            None => BTreeMap::new(alloc),
        }
    }
}
