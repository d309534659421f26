// A case with one list that is set or forgotten tells the case that comes.

use crate::store::next::Next;
use opa_case::{InstanceId, Relisted};
use opa_io::{List, Txt};
use opa_line::Line;
use opa_model::{AttrId, RelId};
use opa_value::Value;

/// A case with one list that is set or forgotten, and not written yet: nothing is copied.
impl<'a> Next for Relisted<'a> {
    ghost use Rattle.opa_case.specs.Overlays.{relisted_case};

    ghost next = { λ n. relisted_case n };

    fn answer_of(&self, attr: AttrId, inst: &InstanceId) -> Option<&Line<Value>> {
        Relisted::answer_of(self, attr, inst)
    }

    fn list_of(&self, rel: RelId, inst: &InstanceId) -> Option<&List<Txt>> {
        Relisted::list_of(self, rel, inst)
    }

    fn container_of(&self, inst: &InstanceId) -> Option<&InstanceId> {
        Relisted::container_of(self, inst)
    }

    fn live(&self, inst: &InstanceId) -> bool {
        Relisted::live(self, inst)
    }
}
