// What a store has of a slot.
ghost use Rattle.std.specs.Prelude.{◌≡◌, Some, OnOk, OnErr};
ghost use Rattle.std.specs.FinMap as map;
ghost use Rattle.opa_session.specs.Store.Entries.{abandoned, committed, changed_at, with_staged};

use opa_cells::{Cells, InstanceId};
use opa_io::NoMemory;
use opa_line::Line;
use opa_value::Value;

/// A kept line and a staged one, where there are.
#[derive(Drop)]
pub(crate) struct Entry {
    pub(crate) kept: Option<Line<Value>>,
    pub(crate) staged: Option<Line<Value>>,
}

impl Entry {
    fn stage(&mut self, line: Line<Value>)
        ensures { self.new ≡ record { kept = self.old.kept; staged = Some line } }
    {
        self.staged = Some(line);
    }

    /// Keeps the staged line, if there is one.
    fn commit(&mut self)
        ensures { self.new ≡ committed self.old }
    {
        if let Some(line) = self.staged.take() {
            self.kept = Some(line);
        }
    }

    fn abandon(&mut self)
        ensures { self.new ≡ abandoned self.old }
    {
        self.staged = None;
    }
}

/// Stages a line at a key. For want of memory all entries are as they were.
pub(crate) fn stage_at(
    entries: &mut Cells<Entry>,
    number: u32,
    inst: InstanceId,
    line: Line<Value>,
) -> Result<(), NoMemory>
    ensures ok { OnOk result (entries.new ≡ map.insert entries.old (number, inst) (with_staged (map.get entries.old (number, inst)) line)) }
    ensures err { OnErr result (entries.new ≡ entries.old) }
{
    match entries.get_mut(number, &inst) {
        Some(entry) => {
            entry.stage(line);
            Ok(())
        }
        None => {
            let entry = Entry {
                kept: None,
                staged: Some(line),
            };
            entries.insert(number, inst, entry)
        }
    }
}

/// Keeps the staged line at a key. It takes no memory.
pub(crate) fn commit_at(entries: &mut Cells<Entry>, number: u32, inst: &InstanceId)
    ensures { entries.new ≡ changed_at committed entries.old (number, inst.now) }
{
    if let Some(entry) = entries.get_mut(number, inst) {
        entry.commit();
    }
}

/// Drops the staged line at a key. It takes no memory.
pub(crate) fn abandon_at(entries: &mut Cells<Entry>, number: u32, inst: &InstanceId)
    ensures { entries.new ≡ changed_at abandoned entries.old (number, inst.now) }
{
    if let Some(entry) = entries.get_mut(number, inst) {
        entry.abandon();
    }
}
