// Which slots read a line.
ghost use Rattle.std.specs.Prelude.{◌≡◌};
ghost use Rattle.std.specs.Option.{option_copied};
ghost use Rattle.opa_case.specs.declared.question.Question.{Question as QuestionView};
ghost use Rattle.opa_case.specs.declared.question.Question.TheVariants as questions;
ghost use Rattle.opa_mean.specs.Reached.Settling.{Waiting};
ghost use Rattle.opa_mean.specs.Reached.Slots.{pairs_of, slots_in};

use crate::reached::slot::Slot;
use opa_case::InstanceId;
use opa_model::AttrId;
use std::collections::BTreeSet;

/// What tells the slots that read a question. Which case's slots these are is said where readers are used.
pub trait Readers {
    ghost readers: { Self → QuestionView → Waiting };

    /// The slots that read the line of an attribute for an instance. There is no set where none does.
    fn of_line(&self, attr: AttrId, inst: &InstanceId) -> Option<&BTreeSet<Slot>>
        ensures { pairs_of (slots_in (option_copied result)) ≡ readers self.now (questions.Attr attr inst.now) };
}
