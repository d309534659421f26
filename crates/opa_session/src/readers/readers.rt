// The readers of a question, looked up.
ghost use Rattle.std.specs.Prelude.{◌≡◌};
ghost use Rattle.std.specs.Option.{option_copied};
ghost use Rattle.opa_case.specs.declared.question.Question.TheVariants as questions;
ghost use Rattle.opa_mean.specs.Reached.Slots.{pairs_of, slots_in};
ghost use Rattle.opa_session.specs.Readers.Indexes.{readers_in};

use crate::readers::index::Index;
use crate::settlement::Reading;
use opa_case::{InstanceId, Question};
use opa_mean::{Readers, Slot};
use opa_model::{AttrId, RelId};
use std::collections::BTreeSet;

impl Readers for Index {
    ghost use Rattle.opa_session.specs.Readers.Indexes.{readers_in};

    ghost readers = { readers_in };

    fn of_line(&self, attr: AttrId, inst: &InstanceId) -> Option<&BTreeSet<Slot>> {
        self.lines.get(attr.0, inst)
    }
}

impl Reading for Index {
    ghost use Rattle.opa_session.specs.Readers.Indexes.{readers_in};

    ghost reading = { readers_in };

    fn of(&self, question: &Question) -> Option<&BTreeSet<Slot>> {
        match question {
            Question::Attr(attr, inst) => self.of_line(*attr, inst),
            Question::Members(rel, inst) => self.of_list(*rel, inst),
        }
    }
}

impl Index {
    /// The slots that read a list. There is no set where none does.
    pub fn of_list(&self, rel: RelId, inst: &InstanceId) -> Option<&BTreeSet<Slot>>
        ensures { pairs_of (slots_in (option_copied result)) ≡ readers_in self.now (questions.Members rel inst.now) }
    {
        self.lists.get(rel.0, inst)
    }
}
