// The four changes of a case. Each is made whole, or refused with the case as it was.
ghost use Rattle.std.specs.Prelude.{◌≡◌, ◌≢◌, true, false, nat_lt, length, IfErr, OnOk, OnErr, Ok, Err};
ghost use Rattle.std.specs.FinMap as map;
ghost use Rattle.opa_model.specs.Models.{HasAttribute, HasRelation};
ghost use Rattle.opa_case.specs.Shapes.{shape_of};
ghost use Rattle.opa_case.specs.Live.{is_live};
ghost use Rattle.opa_case.specs.Steps as step;
ghost use Rattle.opa_case.specs.Fits.{Fits};
ghost use Rattle.opa_case.specs.declared.change.Refusal.TheVariants as refusals;

use crate::answer_faults::{answer_fault, is_unanswerable, is_unknown_answer};
use crate::case::Case;
use crate::change::Refusal;
use opa_cells::InstanceId;
use opa_io::{List, NoMemory, Txt};
use opa_line::Line;
use opa_model::{AttrId, Model, RelId, Ruled};
use opa_value::Value;

impl Case {
    /// Sets an answer. One that is unknown on every day takes the answer away.
    pub fn answer(
        &mut self,
        model: &Model,
        ruled: &Ruled,
        attr: AttrId,
        inst: &InstanceId,
        line: Line<Value>,
    ) -> Result<(), Refusal>
        requires declared { HasAttribute model.now attr }
        requires fits { Fits (shape_of model.now) ruled.now self.old }
        ensures ok { OnOk result (step.answer (shape_of model.now) ruled.now self.old attr inst.now line ≡
            Ok self.new) }
        ensures err { IfErr result (λ e. e ≢ refusals.NoMemory →
            step.answer (shape_of model.now) ruled.now self.old attr inst.now line ≡ Err e) }
        ensures unchanged { OnErr result (self.new ≡ self.old) }
        ensures fits { OnOk result (Fits (shape_of model.now) ruled.now self.new) }
    {
        if let Some(fault) = answer_fault(self, model, ruled, attr, inst, &line) {
            return Err(fault);
        }
        self.put_answer(attr, inst, line)?;
        Ok(())
    }

    /// Takes an answer away, or changes nothing where there is none.
    pub fn withdraw(
        &mut self,
        model: &Model,
        ruled: &Ruled,
        attr: AttrId,
        inst: &InstanceId,
    ) -> Result<(), Refusal>
        requires declared { HasAttribute model.now attr }
        requires fits { Fits (shape_of model.now) ruled.now self.old }
        ensures ok { OnOk result (step.withdraw (shape_of model.now) ruled.now self.old attr inst.now ≡ Ok self.new) }
        ensures err { IfErr result (λ e. step.withdraw (shape_of model.now) ruled.now self.old attr inst.now ≡ Err e) }
        ensures unchanged { OnErr result (self.new ≡ self.old) }
        ensures fits { OnOk result (Fits (shape_of model.now) ruled.now self.new) }
    {
        if is_unanswerable(self, model, ruled, attr, inst) {
            return Err(Refusal::Name);
        }
        self.drop_answer(attr, inst);
        Ok(())
    }

    /// Makes a list known.
    pub fn set_list(
        &mut self,
        model: &Model,
        ruled: &Ruled,
        rel: RelId,
        inst: &InstanceId,
        names: List<Txt>,
    ) -> Result<(), Refusal>
        requires declared { HasRelation model.now rel }
        requires fits { Fits (shape_of model.now) ruled.now self.old }
        ensures ok { OnOk result (step.set_list (shape_of model.now) ruled.now self.old rel inst.now names ≡
            Ok self.new) }
        ensures err { IfErr result (λ e. e ≢ refusals.NoMemory →
            step.set_list (shape_of model.now) ruled.now self.old rel inst.now names ≡ Err e) }
        ensures unchanged { OnErr result (self.new ≡ self.old) }
        ensures fits { OnOk result (Fits (shape_of model.now) ruled.now self.new) }
    {
        let moves = self.moves_with(model, ruled, rel, inst, &names)?;
        self.write_list(model, ruled, rel, inst, Some(names), moves)?;
        Ok(())
    }

    /// Makes a list unknown.
    pub fn forget(
        &mut self,
        model: &Model,
        ruled: &Ruled,
        rel: RelId,
        inst: &InstanceId,
    ) -> Result<(), Refusal>
        requires declared { HasRelation model.now rel }
        requires fits { Fits (shape_of model.now) ruled.now self.old }
        ensures ok { OnOk result (step.forget (shape_of model.now) self.old rel inst.now ≡ Ok self.new) }
        ensures err { IfErr result (λ e. e ≢ refusals.NoMemory →
            step.forget (shape_of model.now) self.old rel inst.now ≡ Err e) }
        ensures unchanged { OnErr result (self.new ≡ self.old) }
        ensures fits { OnOk result (Fits (shape_of model.now) ruled.now self.new) }
    {
        let moves = self.moves_without(model, ruled, rel, inst)?;
        self.write_list(model, ruled, rel, inst, None, moves)?;
        Ok(())
    }
}

impl Case {
    /// Puts an answer in, or takes it out where it says nothing on any day.
    fn put_answer(
        &mut self,
        attr: AttrId,
        inst: &InstanceId,
        line: Line<Value>,
    ) -> Result<(), NoMemory>
        requires lives { is_live self.old.live inst.now ≡ true }
        requires few { nat_lt 1000 (length line) ≡ false }
        requires room { nat_lt 100000 (map.len (step.with_answer self.old attr inst.now line).answers) ≡ false }
        ensures ok { OnOk result (self.new ≡ step.with_answer self.old attr inst.now line) }
        ensures unchanged { OnErr result (self.new ≡ self.old) }
    {
        if is_unknown_answer(&line) {
            self.drop_answer(attr, inst);
            return Ok(());
        }
        let key = inst.copy(self.alloc)?;
        self.answers.insert(attr.0, key, line)
    }

    fn drop_answer(&mut self, attr: AttrId, inst: &InstanceId)
        ensures { self.new ≡ step.without_answer self.old attr inst.now }
    {
        self.answers.remove(attr.0, inst);
    }
}
