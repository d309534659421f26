// How many instances are live, of each entity and of all.
ghost use Rattle.std.specs.Prelude.{◌≡◌, ◌==◌, ◌+◌, ◌-◌, ℕ, [], cond, length, IfOk, OnOk};
ghost use Rattle.opa_case.specs.Homes.{count_at, count_of, AreCounts, AreCountsThen};
ghost use Rattle.opa_case.specs.Live.{Population, members};

use opa_cells::InstanceId;
use opa_io::NoMemory;
use std::alloc::Global;
use std::collections::BTreeMap;

/// How many instances are live, of each entity and of all.
pub trait Counted {
    ghost counts: { Self → Population → Type 0 };

    /// How many there are of an entity.
    fn of(&self, entity: u32) -> u64
        ensures { (live : Population) → counts self.now live → result ≡ length (members entity live) };

    /// How many there are, without the global one.
    fn total(&self) -> u64
        ensures { (live : Population) → counts self.now live → result ≡ length live };
}

impl Counted for Counts {
    ghost use Rattle.opa_case.specs.Homes.{AreCounts};

    ghost counts = { AreCounts };

    fn of(&self, entity: u32) -> u64 {
        Counts::of(self, entity)
    }

    fn total(&self) -> u64 {
        Counts::total(self)
    }
}

/// How many instances there are of each entity but the global one, and of all.
#[derive(Drop)]
pub(crate) struct Counts {
    each: BTreeMap<u32, u64>,
    total: u64,
}

impl Counts {
    pub(crate) fn new(alloc: Global) -> Counts
        ensures { AreCounts result [] }
    {
        Counts {
            each: BTreeMap::new(alloc),
            total: 0,
        }
    }

    pub(crate) fn copy(&self) -> Result<Counts, NoMemory>
        ensures each { IfOk result (λ c. c.each.entries ≡ self.now.each.entries) }
        ensures total { IfOk result (λ c. c.total ≡ self.now.total) }
    {
        Ok(Counts {
            each: self.each.clone()?,
            total: self.total,
        })
    }

    /// How many there are of an entity.
    pub(crate) fn of(&self, entity: u32) -> u64
        ensures { (live : Population) → AreCounts self.now live → result ≡ length (members entity live) }
    {
        if entity == 0 {
            1
        } else {
            count_at(&self.each, entity)
        }
    }

    pub(crate) fn total(&self) -> u64
        ensures { result ≡ self.now.total }
    {
        self.total
    }

    /// The counts where some come and some go.
    pub(crate) fn then(
        &self,
        come: &[(InstanceId, InstanceId)],
        gone: &[(InstanceId, InstanceId)],
    ) -> Result<Counts, NoMemory>
        ensures { IfOk result (λ c. AreCountsThen self.now c come.now gone.now) }
    {
        let mut counts = self.copy()?;
        counts.add(come)?;
        counts.take(gone);
        Ok(counts)
    }

    fn add(&mut self, come: &[(InstanceId, InstanceId)]) -> Result<(), NoMemory>
        ensures { OnOk result (AreCountsThen self.old self.new come.now []) }
    {
        for (inst, _) in come {
            add_one(&mut self.each, inst.entity.0)?;
        }
        self.total = self.total.checked_add(come.len() as u64).ok_or(NoMemory)?;
        Ok(())
    }

    fn take(&mut self, gone: &[(InstanceId, InstanceId)])
        ensures { AreCountsThen self.old self.new [] gone.now }
    {
        for (inst, _) in gone {
            take_one(&mut self.each, inst.entity.0);
        }
        self.total = self.total.saturating_sub(gone.len() as u64);
    }
}

fn count_at(counts: &BTreeMap<u32, u64>, entity: u32) -> u64
    ensures { result ≡ count_at counts.now entity }
{
    match counts.get(&entity) {
        Some(count) => *count,
        None => 0,
    }
}

fn add_one(counts: &mut BTreeMap<u32, u64>, entity: u32) -> Result<(), NoMemory>
    ensures { OnOk result ((e : ℕ) → count_at counts.new e ≡ cond (e == entity) 1 0 + count_at counts.old e) }
{
    let count = count_at(counts, entity).checked_add(1).ok_or(NoMemory)?;
    match counts.insert(entity, count) {
        Ok(_) => Ok(()),
        Err(_) => Err(NoMemory),
    }
}

fn take_one(counts: &mut BTreeMap<u32, u64>, entity: u32)
    ensures { (e : ℕ) → count_at counts.new e ≡ count_at counts.old e - cond (e == entity) 1 0 }
{
    if let Some(count) = counts.get_mut(&entity) {
        *count = count.saturating_sub(1);
    }
}
