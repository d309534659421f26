// Where names stood in their lists when these were last set.
use opa_case::InstanceId;
use opa_cells::Cells;
use opa_io::{NoMemory, Txt};
use opa_model::EntityId;
use std::alloc::Global;

/// From so many places on it is looked whether most of them are of names that have gone.
const MANY: u64 = 32768;

/// The place of each instance in the list that was set last of those that name it. It is a guess: whoever asks looks there.
#[derive(Drop)]
pub(crate) struct Places {
    places: Cells<usize>,
}

impl Places {
    pub(crate) fn new(alloc: Global) -> Places {
        Places {
            places: Cells::new(alloc),
        }
    }

    pub(crate) fn of(&self, inst: &InstanceId) -> Option<usize> {
        match self.places.get(0, inst) {
            Some(place) => Some(*place),
            None => None,
        }
    }

    /// Notes where names of an entity's instances stand, of which so many in front stand as before.
    pub(crate) fn note(
        &mut self,
        alloc: Global,
        entity: EntityId,
        names: &[Txt],
        same: usize,
    ) -> Result<(), NoMemory> {
        if self.are_many(names.len()) {
            self.places = Cells::new(alloc);
        }
        let mut at = self.first_new(alloc, entity, names, same)?;
        while at < names.len() {
            self.note_one(alloc, entity, &names[at], at)?;
            at += 1;
        }
        Ok(())
    }

    /// More than a list of so many names explains: names that go are not taken out one by one.
    fn are_many(&self, names: usize) -> bool {
        let half = self.places.len() / 2;
        half > MANY && half - MANY > names as u64
    }

    /// The first place that has to be noted: those in front are noted if the last of them is.
    fn first_new(
        &self,
        alloc: Global,
        entity: EntityId,
        names: &[Txt],
        same: usize,
    ) -> Result<usize, NoMemory> {
        if same == 0 || names.len() < same {
            return Ok(0);
        }
        let last = same - 1;
        let inst = InstanceId {
            entity,
            name: names[last].copy(alloc)?,
        };
        let place = self.of(&inst);
        if place == Some(last) { Ok(same) } else { Ok(0) }
    }

    fn note_one(
        &mut self,
        alloc: Global,
        entity: EntityId,
        name: &Txt,
        place: usize,
    ) -> Result<(), NoMemory> {
        let inst = InstanceId {
            entity,
            name: name.copy(alloc)?,
        };
        self.places.insert(0, inst, place)?;
        Ok(())
    }
}
