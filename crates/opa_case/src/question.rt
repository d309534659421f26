// What may be asked of a claimant.
ghost use Rattle.std.specs.Prelude.{◌≡◌, IfOk};

use opa_cells::InstanceId;
use opa_io::NoMemory;
use opa_model::{AttrId, RelId};
use std::alloc::Global;

/// A question: an attribute of an instance, or the members of one of its lists.
#[derive(Debug, Drop)]
pub enum Question {
    Attr(AttrId, InstanceId),
    Members(RelId, InstanceId),
}

impl Question {
    /// An equal question.
    pub fn copy(&self, alloc: Global) -> Result<Question, NoMemory>
        ensures { IfOk result (λ question. question ≡ self.now) }
    {
        Ok(match self {
            Question::Attr(attr, inst) => Question::Attr(*attr, inst.copy(alloc)?),
            Question::Members(rel, inst) => Question::Members(*rel, inst.copy(alloc)?),
        })
    }
}
