// A slot that is taken out where it reads. It takes no memory.
ghost use Rattle.std.specs.Prelude.{◌≡◌, ◌∷◌, [], true};
ghost use Rattle.opa_session.specs.Readers.Indexes.{SameTable, TakesAt, TakesReads, TakesSlot, pair_of, slots_at};

use crate::readers::index::Index;
use opa_case::{InstanceId, Question};
use opa_cells::Cells;
use opa_mean::Slot;
use std::collections::BTreeSet;

/// Takes a slot out at some questions.
pub(crate) fn take_questions(questions: &[Question], slot: &Slot, index: &mut Index)
    ensures { TakesReads questions.now slot.now.attr slot.now.inst index.old index.new }
{
    for question in questions {
        take_question(question, slot, index);
    }
}

fn take_question(question: &Question, slot: &Slot, index: &mut Index)
    ensures { TakesReads (question.now ∷ []) slot.now.attr slot.now.inst index.old index.new }
{
    match question {
        Question::Attr(read, at) => {
            take_at(&mut index.lines, read.0, at, slot);
        }
        Question::Members(rel, at) => {
            take_at(&mut index.lists, rel.0, at, slot);
        }
    }
}

/// Takes a slot out of those at a key, and the key where none is left at it.
fn take_at(cells: &mut Cells<BTreeSet<Slot>>, number: u32, key: &InstanceId, slot: &Slot)
    ensures { TakesAt cells.old cells.new (number, key.now) (pair_of slot.now) }
{
    drop_at(cells, number, key, slot);
    drop_empty(cells, number, key);
}

fn drop_at(cells: &mut Cells<BTreeSet<Slot>>, number: u32, key: &InstanceId, slot: &Slot)
    ensures { TakesAt cells.old cells.new (number, key.now) (pair_of slot.now) }
{
    match cells.get_mut(number, key) {
        Some(slots) => drop_slot(slots, slot),
        None => {}
    }
}

fn drop_slot(slots: &mut BTreeSet<Slot>, slot: &Slot)
    ensures { TakesSlot slots.old.keys slots.new.keys (pair_of slot.now) }
{
    slots.remove(slot);
}

/// Takes a key out, where there is no slot at it.
fn drop_empty(cells: &mut Cells<BTreeSet<Slot>>, number: u32, key: &InstanceId)
    ensures { SameTable cells.old cells.new }
{
    if is_empty_at(cells, number, key) {
        cells.remove(number, key);
    }
}

fn is_empty_at(cells: &Cells<BTreeSet<Slot>>, number: u32, key: &InstanceId) -> bool
    ensures { result ≡ true → slots_at cells.now (number, key.now) ≡ [] }
{
    match cells.get(number, key) {
        Some(slots) => slots.is_empty(),
        None => false,
    }
}
