// The attributes that have a rule, by their entities.
ghost use Rattle.std.specs.Prelude.{◌≡◌, ◌≢◌, ◌++◌, ◌==◌, ◌∷◌, ℕ, [], cond, IfOk, OnOk};
ghost use Rattle.opa_session.specs.Store.Owners.{owned_in, AreOwners};

use opa_io::{List, NoMemory};
use opa_mean::owner_of;
use opa_model::AttrId;
use opa_tree::Rulebase;
use std::alloc::Global;
use std::collections::BTreeMap;

/// The attributes that have a rule, by their entities. They are found once for a rulebase, so that no change goes through all
/// rules.
#[derive(Drop)]
pub struct Owners {
    each: BTreeMap<u32, List<AttrId>>,
}

/// The attributes that have a rule, by their entities, in the order of the rules.
pub fn owners_of(alloc: Global, base: &Rulebase) -> Result<Owners, NoMemory>
    ensures { IfOk result (AreOwners base.now) }
{
    let mut owners = Owners::new(alloc);
    let rules = base.rules.as_slice();
    for rule in rules {
        owners.add(alloc, owner_of(&base.model, rule.attr), rule.attr)?;
    }
    Ok(owners)
}

impl Owners {
    fn new(alloc: Global) -> Owners
        ensures { (e : ℕ) → owned_in result e ≡ [] }
    {
        Owners {
            each: BTreeMap::new(alloc),
        }
    }

    /// The attributes of an entity that have a rule.
    pub fn attributes(&self, entity: u32) -> &[AttrId]
        ensures { result.now ≡ owned_in self.now entity }
    {
        match self.each.get(&entity) {
            Some(attrs) => attrs.as_slice(),
            None => &[],
        }
    }

    fn add(&mut self, alloc: Global, entity: u32, attr: AttrId) -> Result<(), NoMemory>
        ensures { OnOk result ((e : ℕ) → owned_in self.new e ≡ owned_in self.old e ++ cond (entity == e) (attr ∷ []) []) }
    {
        let mut attrs = self.take(alloc, entity);
        attrs.push(attr)?;
        self.each.insert(entity, attrs)?;
        Ok(())
    }

    /// Takes out the attributes of an entity.
    fn take(&mut self, alloc: Global, entity: u32) -> List<AttrId>
        ensures taken { result ≡ owned_in self.old entity }
        ensures others { (e : ℕ) → e ≢ entity → owned_in self.new e ≡ owned_in self.old e }
    {
        match self.each.remove(&entity) {
            Some(attrs) => attrs,
            None => List::new(alloc),
        }
    }
}
