// The case that comes.
ghost use Rattle.std.specs.Prelude.{◌≡◌};
ghost use Rattle.std.specs.Option.{option_copied};
ghost use Rattle.std.specs.FinMap.{get};
ghost use Rattle.opa_case.specs.Cases.{CaseView, list_of};
ghost use Rattle.opa_case.specs.Live.{is_live, container_of};

use opa_case::{Case, InstanceId};
use opa_io::{List, Txt};
use opa_line::Line;
use opa_model::{AttrId, RelId};
use opa_value::Value;

/// What tells a case that comes: its answers, lists and instances.
pub trait Next {
    ghost next: { Self → CaseView };

    fn answer_of(&self, attr: AttrId, inst: &InstanceId) -> Option<&Line<Value>>
        ensures { option_copied result ≡ get (next self.now).answers (attr.0, inst.now) };

    fn list_of(&self, rel: RelId, inst: &InstanceId) -> Option<&List<Txt>>
        ensures { option_copied result ≡ list_of (next self.now) rel inst.now };

    fn container_of(&self, inst: &InstanceId) -> Option<&InstanceId>
        ensures { option_copied result ≡ container_of (next self.now).live inst.now };

    fn live(&self, inst: &InstanceId) -> bool
        ensures { result ≡ is_live (next self.now).live inst.now };
}

/// A case that is held whole.
impl Next for Case {
    ghost next = { λ c. c };

    fn answer_of(&self, attr: AttrId, inst: &InstanceId) -> Option<&Line<Value>> {
        Case::answer_of(self, attr, inst)
    }

    fn list_of(&self, rel: RelId, inst: &InstanceId) -> Option<&List<Txt>> {
        Case::list_of(self, rel, inst)
    }

    fn container_of(&self, inst: &InstanceId) -> Option<&InstanceId> {
        Case::container_of(self, inst)
    }

    fn live(&self, inst: &InstanceId) -> bool {
        Case::live(self, inst)
    }
}

/// A case with one answer that is set, or taken away, and not written yet: nothing is copied.
#[derive(Clone, Copy)]
pub struct Answered<'a> {
    pub case: &'a Case,
    pub attr: AttrId,
    pub inst: &'a InstanceId,
    pub line: Option<&'a Line<Value>>,
}

impl<'a> Next for Answered<'a> {
    ghost use Rattle.opa_session.specs.Store.Nexts.{case_with};

    ghost next = { λ n. case_with n };

    fn answer_of(&self, attr: AttrId, inst: &InstanceId) -> Option<&Line<Value>> {
        if attr.0 == self.attr.0 && inst.equals(self.inst) {
            self.line
        } else {
            self.case.answer_of(attr, inst)
        }
    }

    fn list_of(&self, rel: RelId, inst: &InstanceId) -> Option<&List<Txt>> {
        self.case.list_of(rel, inst)
    }

    fn container_of(&self, inst: &InstanceId) -> Option<&InstanceId> {
        self.case.container_of(inst)
    }

    fn live(&self, inst: &InstanceId) -> bool {
        self.case.live(inst)
    }
}
