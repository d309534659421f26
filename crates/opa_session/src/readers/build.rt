// The index of a case, from nothing.
ghost use Rattle.std.specs.Prelude.{IfOk};
ghost use Rattle.opa_session.specs.Telling.Reaching.{AreSlots};
ghost use Rattle.opa_mean.specs.Reached.Settling.{AreReaders};
ghost use Rattle.opa_mean.specs.Rulebases.{IsOf};
ghost use Rattle.opa_session.specs.Readers.Indexes.{readers_in, AreReadersAmong};

use crate::readers::fill::{add_reader, no_readers};
use crate::readers::index::Index;
use crate::telling::live_slots;
use opa_case::{Case, InstanceId};
use opa_io::NoMemory;
use opa_model::AttrId;
use opa_tree::Rulebase;
use std::alloc::Global;

impl Index {
    /// For each line and each list the slots of the case whose rules can look at it. A slot stands once at each.
    pub fn of(alloc: Global, base: &Rulebase, case: &Case) -> Result<Index, NoMemory>
        requires { IsOf base.now case.now }
        ensures { IfOk result (λ index. AreReaders base.now case.now (readers_in index)) }
    {
        let all = live_slots(alloc, base, case)?;
        let slots = all.as_slice();
        let index = among(alloc, base, case, slots)?;
        Ok(index)
    }
}

/// The index of some slots of the case.
fn among(
    alloc: Global,
    base: &Rulebase,
    case: &Case,
    slots: &[(AttrId, InstanceId)],
) -> Result<Index, NoMemory>
    requires fits { IsOf base.now case.now }
    requires slots { AreSlots base.now case.now slots.now }
    ensures { IfOk result (λ index. AreReadersAmong base.now case.now slots.now (readers_in index)) }
{
    let mut index = no_readers(alloc);
    for (attr, inst) in slots {
        add_reader(alloc, base, case, *attr, inst, &mut index)?;
    }
    Ok(index)
}
