// What tests for refusals ask of a case.
ghost use Rattle.std.specs.Prelude.{◌≡◌, is_some};
ghost use Rattle.std.specs.Option.{option_copied};
ghost use Rattle.std.specs.FinMap.{get, len};
ghost use Rattle.opa_case.specs.Cases.{CaseView};
ghost use Rattle.opa_case.specs.Live.{is_live, container_of};

use crate::case::Case;
use opa_cells::InstanceId;
use opa_model::AttrId;

/// What tests for refusals ask of a case: who is live, and where, and what is answered.
pub trait Standing {
    ghost case: { Self → CaseView };

    fn live(&self, inst: &InstanceId) -> bool
        ensures { result ≡ is_live (case self.now).live inst.now };

    /// The container of a live instance; none of the global one.
    fn container_of(&self, inst: &InstanceId) -> Option<&InstanceId>
        ensures { option_copied result ≡ container_of (case self.now).live inst.now };

    fn is_answered(&self, attr: AttrId, inst: &InstanceId) -> bool
        ensures { result ≡ is_some (get (case self.now).answers (attr.0, inst.now)) };

    /// How many answers there are.
    fn answers(&self) -> u64
        ensures { result ≡ len (case self.now).answers };
}

impl Standing for Case {
    ghost case = { λ c. c };

    fn live(&self, inst: &InstanceId) -> bool {
        Case::live(self, inst)
    }

    fn container_of(&self, inst: &InstanceId) -> Option<&InstanceId> {
        Case::container_of(self, inst)
    }

    fn is_answered(&self, attr: AttrId, inst: &InstanceId) -> bool {
        Case::is_answered(self, attr, inst)
    }

    fn answers(&self) -> u64 {
        Case::answers(self)
    }
}
