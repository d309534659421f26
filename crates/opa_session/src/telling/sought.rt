// What is sought: the instances of slots, and whatever contains them. A name without its mark isn't looked up.
ghost use Rattle.std.specs.Prelude.{◌≡◌, ◌≤◌, ◌||◌, true, false, IfOk, OnOk};
ghost use Rattle.std.specs.List.{list_any};
ghost use Rattle.opa_cells.specs.Instances.{is_same, named};
ghost use Rattle.opa_cells.specs.declared.instance.InstanceId.{InstanceId as InstanceView};
ghost use Rattle.opa_session.specs.Telling.NameMarks.{AllMarked};
ghost use Rattle.opa_session.specs.Telling.Placed.{AllListed};
ghost use Rattle.opa_session.specs.Telling.Wanted.{has_wanted, AddsUpward, AreWanted, IsClosedBut};

use crate::telling::lined::Lined;
use crate::telling::name_marks::{may_be, set_mark};
use crate::telling::wanted::Wanted;
use opa_case::InstanceId;
use opa_io::{List, NoMemory, Txt};
use opa_mean::Slot;
use std::alloc::Global;

/// Wanted instances, with the marks of their names.
#[derive(Drop)]
pub(crate) struct Sought {
    pub(crate) wanted: Wanted,
    marks: [bool; 256],
    pub(crate) all: List<InstanceId>,
    ghost marked: { AllMarked (has_wanted wanted) marks },
    ghost listed: { AllListed (has_wanted wanted) all },
}

impl Sought {
    pub(crate) fn new(alloc: Global) -> Sought
        ensures { (i : InstanceView) → has_wanted result.wanted i ≡ false }
    {
        Sought {
            wanted: Wanted::new(alloc),
            marks: [false; 256],
            all: List::new(alloc),
        }
    }

    /// Whether the instance of an entity with a name is wanted.
    #[inline(always)]
    pub(crate) fn has(&self, entity: u32, name: &Txt) -> bool
        ensures { result ≡ has_wanted self.now.wanted (named entity name.now) }
    {
        may_be(&self.marks, name) && self.wanted.has(entity, name)
    }

    pub(crate) fn insert(&mut self, alloc: Global, inst: &InstanceId) -> Result<(), NoMemory>
        ensures { OnOk result ((i : InstanceView) → has_wanted self.new.wanted i ≡ (is_same i inst.now || has_wanted self.old.wanted i)) }
    {
        set_mark(&mut self.marks, &inst.name);
        add_listed(&mut self.all, alloc, inst)?;
        add_wanted(&mut self.wanted, alloc, inst)?;
        Ok(())
    }
}

fn add_listed(all: &mut List<InstanceId>, alloc: Global, inst: &InstanceId) -> Result<(), NoMemory>
    ensures kept { (i : InstanceView) → list_any (is_same i) all.old ≡ true → list_any (is_same i) all.new ≡ true }
    ensures there { OnOk result (list_any (is_same inst.now) all.new ≡ true) }
{
    let inst = inst.copy(alloc)?;
    all.push(inst)?;
    Ok(())
}

/// Adds an instance; without memory nothing is wanted any more.
fn add_wanted(wanted: &mut Wanted, alloc: Global, inst: &InstanceId) -> Result<(), NoMemory>
    ensures ok { OnOk result ((i : InstanceView) → has_wanted wanted.new i ≡ (is_same i inst.now || has_wanted wanted.old i)) }
    ensures less { (i : InstanceView) → has_wanted wanted.new i ≡ true → (is_same i inst.now || has_wanted wanted.old i) ≡ true }
{
    match wanted.insert(alloc, inst) {
        Ok(()) => Ok(()),
        Err(_) => {
            *wanted = Wanted::new(alloc);
            Err(NoMemory)
        }
    }
}

/// The instances of slots, and whatever contains them.
pub(crate) fn sought_by<K: Lined>(
    alloc: Global,
    held: &K,
    slots: &[Slot],
) -> Result<Sought, NoMemory>
    ensures { IfOk result (λ sought. AreWanted (K.over held.now).live slots.now (has_wanted sought.wanted)) }
{
    let mut sought = Sought::new(alloc);
    for slot in slots {
        let steps = slot.inst.entity.0;
        add_upward(alloc, held, &slot.inst, steps, &mut sought)?;
    }
    Ok(sought)
}

/// Adds an instance and whatever contains it. Each container is of an earlier entity.
fn add_upward<K: Lined>(
    alloc: Global,
    held: &K,
    inst: &InstanceId,
    steps: u32,
    sought: &mut Sought,
) -> Result<(), NoMemory>
    requires enough { inst.now.entity.0 ≤ steps }
    requires closed { IsClosedBut (K.over held.now).live (has_wanted sought.old.wanted) inst.now }
    ensures { OnOk result (AddsUpward (K.over held.now).live (has_wanted sought.old.wanted) (has_wanted sought.new.wanted) inst.now) }
{
    if sought.has(inst.entity.0, &inst.name) {
        return Ok(());
    }
    sought.insert(alloc, inst)?;
    let _base = held.base();
    match held.container_of(inst) {
        Some(container) => {
            add_upward(alloc, held, container, steps - 1, sought)?;
            Ok(())
        }
        None => Ok(()),
    }
}
