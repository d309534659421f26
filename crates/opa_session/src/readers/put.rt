// A renewal is added to an index, and taken out of it.
ghost use Rattle.std.specs.Prelude.{OnErr, OnOk};
ghost use Rattle.opa_session.specs.Readers.Indexes.{readers_in};
ghost use Rattle.opa_session.specs.Readers.Renewals.{AddsMore, AddsSomeMore, AreApart, IsAdded, SameReaders, TakesBack, TakesLost, TakesMore, TakesOut};

use crate::readers::fill::add_questions;
use crate::readers::index::Index;
use crate::readers::renewal::{Renewal, Renewed};
use crate::readers::take::take_questions;
use opa_io::NoMemory;
use std::alloc::Global;

impl Index {
    /// Adds what is read besides. Without memory the readers are as they were.
    pub fn add(&mut self, alloc: Global, renewal: &Renewal) -> Result<(), NoMemory>
        requires apart { AreApart renewal.now (readers_in self.old) }
        ensures added { OnOk result (IsAdded renewal.now (readers_in self.old) (readers_in self.new)) }
        ensures err { OnErr result (SameReaders (readers_in self.old) (readers_in self.new)) }
    {
        match add_more(alloc, renewal.slots.as_slice(), self) {
            Ok(()) => Ok(()),
            Err(_) => {
                take_more(renewal.slots.as_slice(), self);
                Err(NoMemory)
            }
        }
    }

    /// Takes back what was added. It takes no memory.
    pub fn take_back(&mut self, renewal: &Renewal)
        ensures { TakesBack renewal.now (readers_in self.old) (readers_in self.new) }
    {
        take_more(renewal.slots.as_slice(), self);
    }

    /// Takes out what is read no more. It takes no memory.
    pub fn take_out(&mut self, renewal: &Renewal)
        ensures { TakesOut renewal.now (readers_in self.old) (readers_in self.new) }
    {
        take_lost(renewal.slots.as_slice(), self);
    }
}

fn add_more(alloc: Global, slots: &[Renewed], index: &mut Index) -> Result<(), NoMemory>
    ensures adds { OnOk result (AddsMore slots.now (readers_in index.old) (readers_in index.new)) }
    ensures err { OnErr result (AddsSomeMore slots.now (readers_in index.old) (readers_in index.new)) }
{
    for renewed in slots {
        let more = renewed.more.as_slice();
        let slot = &renewed.slot;
        add_questions(alloc, more, slot.attr, &slot.inst, index)?;
    }
    Ok(())
}

fn take_more(slots: &[Renewed], index: &mut Index)
    ensures { TakesMore slots.now (readers_in index.old) (readers_in index.new) }
{
    for renewed in slots {
        let more = renewed.more.as_slice();
        take_questions(more, &renewed.slot, index);
    }
}

fn take_lost(slots: &[Renewed], index: &mut Index)
    ensures { TakesLost slots.now (readers_in index.old) (readers_in index.new) }
{
    for renewed in slots {
        let lost = renewed.lost.as_slice();
        take_questions(lost, &renewed.slot, index);
    }
}
