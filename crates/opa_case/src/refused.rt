// Why the four changes of a case are refused, as tests that change nothing.
ghost use Rattle.std.specs.Prelude.{◌≡◌, cond, None, Some, IfOk};
ghost use Rattle.opa_model.specs.Models.{HasAttribute, HasRelation};
ghost use Rattle.opa_case.specs.Fits.{Fits};
ghost use Rattle.opa_case.specs.Refusals.{refusal_of};
ghost use Rattle.opa_case.specs.Shapes.{shape_of};
ghost use Rattle.opa_case.specs.Steps as step;
ghost use Rattle.opa_case.specs.declared.change.Refusal.TheVariants as refusals;

use crate::answer_faults::{answer_fault, is_unanswerable};
use crate::case::Case;
use crate::change::Refusal;
use crate::declared::bond_of;
use crate::list_faults::is_misplaced;
use crate::slots::is_full;
use opa_cells::InstanceId;
use opa_io::{List, NoMemory, Txt};
use opa_line::Line;
use opa_model::{AttrId, Model, RelId, Ruled};
use opa_value::Value;
use std::alloc::Global;

impl Case {
    /// Why the answer can't be set.
    pub fn answer_refusal(
        &self,
        model: &Model,
        ruled: &Ruled,
        attr: AttrId,
        inst: &InstanceId,
        line: &Line<Value>,
    ) -> Option<Refusal>
        requires { HasAttribute model.now attr }
        ensures { result ≡ refusal_of (step.answer (shape_of model.now) ruled.now self.now attr inst.now line.now) }
    {
        answer_fault(self, model, ruled, attr, inst, line)
    }

    /// Why an answer can't be taken away.
    pub fn withdraw_refusal(
        &self,
        model: &Model,
        ruled: &Ruled,
        attr: AttrId,
        inst: &InstanceId,
    ) -> Option<Refusal>
        requires { HasAttribute model.now attr }
        ensures { result ≡ refusal_of (step.withdraw (shape_of model.now) ruled.now self.now attr inst.now) }
    {
        if is_unanswerable(self, model, ruled, attr, inst) {
            Some(Refusal::Name)
        } else {
            None
        }
    }

    /// Why the list can't be set.
    pub fn list_refusal(
        &self,
        alloc: Global,
        model: &Model,
        ruled: &Ruled,
        rel: RelId,
        inst: &InstanceId,
        names: &List<Txt>,
    ) -> Result<Option<Refusal>, NoMemory>
        requires declared { HasRelation model.now rel }
        requires fits { Fits (shape_of model.now) ruled.now self.now }
        ensures { IfOk result (λ refusal. refusal ≡ refusal_of
            (step.set_list (shape_of model.now) ruled.now self.now rel inst.now names.now)) }
    {
        if let Some(fault) = self.fault_of_list(alloc, model, ruled, rel, inst, names.as_slice())? {
            return Ok(Some(fault));
        }
        let full = self.is_full_with(model, ruled, rel, inst, names)?;
        Ok(limit_where(full))
    }

    /// Why the list can't be forgotten.
    pub fn forget_refusal(&self, model: &Model, rel: RelId, inst: &InstanceId) -> Option<Refusal>
        ensures { result ≡ refusal_of (step.forget (shape_of model.now) self.now rel inst.now) }
    {
        if is_misplaced(self, model, rel, inst) {
            Some(Refusal::Name)
        } else {
            None
        }
    }
}

impl Case {
    /// Whether too much would be live with a list that has no fault.
    fn is_full_with(
        &self,
        model: &Model,
        ruled: &Ruled,
        rel: RelId,
        inst: &InstanceId,
        names: &List<Txt>,
    ) -> Result<bool, NoMemory>
        requires declared { HasRelation model.now rel }
        requires fits { Fits (shape_of model.now) ruled.now self.now }
        requires free { step.list_fault (shape_of model.now) self.now rel inst.now names.now ≡ None }
        ensures { IfOk result (λ full. full ≡ step.is_full (shape_of model.now) ruled.now (step.with_list (shape_of model.now) self.now rel inst.now names.now).live) }
    {
        if bond_of(model, rel.0).contains {
            let turn = self.turn_with(model, ruled, rel, inst, names)?;
            Ok(is_full(model, ruled, &turn.counts))
        } else {
            Ok(is_full(model, ruled, &self.living.counts))
        }
    }
}

fn limit_where(full: bool) -> Option<Refusal>
    ensures { result ≡ cond full (Some refusals.Limit) None }
{
    if full { Some(Refusal::Limit) } else { None }
}
