// A change of a value.
ghost use Rattle.std.specs.Prelude.{◌≡◌, ◌<◌, IfOk};
ghost use Rattle.opa_date.specs.declared.TheConstants.{DAYS};
ghost use Rattle.opa_listen.specs.Days.{IsInCalendar};

use opa_cells::InstanceId;
use opa_io::{NoMemory, Txt};
use opa_model::{AttrId, Kind};
use opa_value::Value;
use std::alloc::Global;

/// From this day on an attribute of an instance has another value. Each day is of the calendar.
#[derive(Debug, Drop)]
pub struct Change {
    pub attr: AttrId,
    pub kind: Kind,
    pub phrase: Txt,
    pub inst: InstanceId,
    pub day: u32,
    pub was: Value,
    pub now: Value,
    pub ghost day_of_calendar: { day < DAYS },
    pub ghost was_of_calendar: { IsInCalendar was },
    pub ghost now_of_calendar: { IsInCalendar now },
}

impl Change {
    /// An equal change.
    pub fn copy(&self, alloc: Global) -> Result<Change, NoMemory>
        ensures { IfOk result (λ change. change ≡ self.entry.now) }
    {
        let phrase = self.phrase.copy(alloc)?;
        let inst = self.inst.copy(alloc)?;
        let was = self.was.copy(alloc)?;
        let now = self.now.copy(alloc)?;
        Ok(Change {
            attr: self.attr,
            kind: self.kind,
            phrase,
            inst,
            day: self.day,
            was,
            now,
        })
    }
}
