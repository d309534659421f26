// The live instances, found by themselves. Their order isn't kept: the lists tell it.
ghost use Rattle.std.specs.Prelude.{◌≡◌, ◌||◌, is_some, [], IfOk};
ghost use Rattle.std.specs.Option.{option_copied};
ghost use Rattle.std.specs.FinMap as map;
ghost use Rattle.opa_cells.specs.Instances.{is_same, global};
ghost use Rattle.opa_case.specs.Homes.{home_of, AreCounts};

use crate::copies::EachInstance;
use crate::counts::Counts;
use opa_cells::{Cells, InstanceId};
use opa_io::NoMemory;
use std::alloc::Global;

/// The containers of the live instances but the global one, and how many they are. Look-ups take no walk over them.
#[derive(Drop)]
pub(crate) struct Living {
    pub(crate) homes: Cells<InstanceId>,
    pub(crate) counts: Counts,
}

impl Living {
    pub(crate) fn new(alloc: Global) -> Living
        ensures homes { result.homes ≡ map.empty }
        ensures counts { AreCounts result.counts [] }
    {
        Living {
            homes: Cells::new(alloc),
            counts: Counts::new(alloc),
        }
    }

    pub(crate) fn copy(&self, alloc: Global) -> Result<Living, NoMemory>
        ensures homes { IfOk result (λ l. l.homes ≡ self.now.homes) }
        ensures each { IfOk result (λ l. l.counts.each.entries ≡ self.now.counts.each.entries) }
        ensures total { IfOk result (λ l. l.counts.total ≡ self.now.counts.total) }
    {
        Ok(Living {
            homes: self.homes.copy(alloc, &EachInstance)?,
            counts: self.counts.copy()?,
        })
    }

    pub(crate) fn container_of(&self, inst: &InstanceId) -> Option<&InstanceId>
        ensures { option_copied result ≡ home_of self.now.homes inst.now }
    {
        self.homes.get(0, inst)
    }

    pub(crate) fn is_live(&self, inst: &InstanceId) -> bool
        ensures { result ≡ (is_same inst.now global || is_some (home_of self.now.homes inst.now)) }
    {
        inst.is_global() || self.container_of(inst).is_some()
    }
}
