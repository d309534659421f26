// An instance of an entity.
ghost use Rattle.std.specs.Prelude.{◌≡◌, ◌++◌, IfOk};
ghost use Rattle.std.specs.Hash as fed;
ghost use Rattle.std.specs.Cmp.Rules.{hashing};
ghost use Rattle.std.proofs.Common.{rules};
ghost use Rattle.opa_cells.specs.Instances.{is_same, global, named};

use opa_io::{NoMemory, Same, Txt};
use opa_model::EntityId;
use std::alloc::Global;
use std::hash::{Hash, Hasher};

/// An instance by its entity and its name. The global instance is of entity 0 and has no bytes as its name.
#[derive(PartialEq, Eq, PartialOrd, Ord, Debug, Drop)]
pub struct InstanceId {
    pub entity: EntityId,
    pub name: Txt,
}

impl Hash for InstanceId {
    ghost hash_input = { λ i. fed.u32 i.entity.0 ++ fed.str i.name };

    ghost respects_eq = { Prim.search (hashing, rules) };

    fn hash<H: Hasher>(&self, state: &mut H) {
        self.entity.0.hash(state);
        self.name.as_str().hash(state);
    }
}

impl InstanceId {
    /// An equal instance.
    pub fn copy(&self, alloc: Global) -> Result<InstanceId, NoMemory>
        ensures { IfOk result (λ i. i ≡ self.now) }
    {
        Ok(InstanceId {
            entity: self.entity,
            name: self.name.copy(alloc)?,
        })
    }

    /// The global instance.
    pub fn global(alloc: Global) -> Result<InstanceId, NoMemory>
        ensures { IfOk result (λ i. i ≡ global) }
    {
        Ok(InstanceId {
            entity: EntityId(0),
            name: Txt::from_str(alloc, "")?,
        })
    }

    /// Whether this is the instance of an entity with a name.
    pub fn is(&self, entity: u32, name: &Txt) -> bool
        ensures { result ≡ is_same (named entity name.now) self.now }
    {
        self.entity.0 == entity && name.same(&self.name)
    }

    /// Whether both are one.
    pub fn equals(&self, other: &InstanceId) -> bool
        ensures { result ≡ is_same self.now other.now }
    {
        other.is(self.entity.0, &self.name)
    }

    pub fn is_global(&self) -> bool
        ensures { result ≡ is_same self.now global }
    {
        self.entity.0 == 0 && self.name.as_str().len() == 0
    }
}
