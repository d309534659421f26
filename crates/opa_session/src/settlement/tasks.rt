// Slots that wait to be derived, in the order of ranks.
ghost use Rattle.std.specs.Prelude.{◌≡◌, ◌⊎◌, ◌↔◌, [], ◌∷◌, Contains, MatchOption, IfSome, OnOk};
ghost use Rattle.opa_session.specs.Settlement.Tasks.{ComesFirst};
ghost use Rattle.opa_session.specs.declared.settlement.task.Task.{Task as TaskView};

use crate::settlement::task::Task;
use opa_io::NoMemory;
use std::alloc::Global;
use std::collections::BTreeSet;
use std::marker::Model;

/// Tasks in their order, each once.
#[derive(Drop)]
pub struct Tasks {
    tasks: BTreeSet<Task>,
}

impl Model for Tasks {
    ghost use Rattle.std.specs.Prelude.{List as Seq};
    ghost use Rattle.std.specs.Coded.{coded_list};
    ghost use Rattle.opa_session.specs.declared.settlement.task.Task.{Task as Each};
    ghost use Rattle.opa_session.specs.contracts.settlement.task.Task as each;

    ghost Value = { Seq Each };

    ghost coded = { coded_list each.the_row.coded };

    ghost view = { λ t. t.tasks.keys };
}

impl Tasks {
    pub fn new(alloc: Global) -> Tasks
        ensures { result ≡ [] }
    {
        Tasks {
            tasks: BTreeSet::new(alloc),
        }
    }

    /// Takes the first task out.
    pub fn take_first(&mut self) -> Option<Task>
        ensures taken { MatchOption result ((self.old ≡ []) × (self.new ≡ [])) (λ t. self.old ≡ t ∷ self.new) }
        ensures first { IfSome result (λ t. (u : TaskView) → Contains self.new u → ComesFirst t u) }
        ensures once { IfSome result (λ t. Contains self.new t → ⊥) }
    {
        self.tasks.pop_first()
    }

    /// Adds a task, if it isn't there yet.
    pub fn add(&mut self, task: Task) -> Result<(), NoMemory>
        ensures { OnOk result ((u : TaskView) → Contains self.new u ↔ (Contains self.old u ⊎ (u ≡ task))) }
    {
        match self.tasks.insert(task) {
            Ok(_) => Ok(()),
            Err(_) => Err(NoMemory),
        }
    }
}
