// The line that a command asks for: an answer that is set or taken away.
ghost use Rattle.std.specs.Prelude.{◌≡◌, Ok, Err, None, IfOk, IfErr};
ghost use Rattle.opa_case.specs.Shapes.{shape_of};
ghost use Rattle.opa_case.specs.Steps as step;
ghost use Rattle.opa_mean.specs.Rulebases.{IsOf};
ghost use Rattle.opa_model.specs.Models.{HasAttribute};
ghost use Rattle.opa_session.specs.Store.Nexts.{answered};
ghost use Rattle.opa_session.specs.Infer.Coming.{IsAnswerable};

use opa_case::{Case, InstanceId, Refusal, is_unknown_answer, models_are_shapes, step_fits};
use opa_line::Line;
use opa_model::AttrId;
use opa_tree::Rulebase;
use opa_value::Value;

/// The line that an answer sets, or its refusal. One that is unknown on every day takes the answer away.
pub(crate) fn coming_answer(
    base: &Rulebase,
    case: &Case,
    attr: AttrId,
    inst: &InstanceId,
    line: Line<Value>,
) -> Result<Option<Line<Value>>, Refusal>
    requires fits { IsOf base.now case.now }
    requires declared { HasAttribute base.now.model attr }
    ensures ok { IfOk result (λ o. step.answer (shape_of base.now.model) base.now.ruled case.now attr inst.now line ≡ Ok (answered case.now attr inst.now o)) }
    ensures may { IfOk result (IsAnswerable base.now case.now attr inst.now) }
    ensures err { IfErr result (λ e. step.answer (shape_of base.now.model) base.now.ruled case.now attr inst.now line ≡ Err e) }
{
    models_are_shapes();
    step_fits();
    if let Some(refusal) = case.answer_refusal(&base.model, &base.ruled, attr, inst, &line) {
        return Err(refusal);
    }
    if is_unknown_answer(&line) {
        Ok(None)
    } else {
        Ok(Some(line))
    }
}

/// That an answer can be taken away, or the refusal.
pub(crate) fn coming_withdrawal(
    base: &Rulebase,
    case: &Case,
    attr: AttrId,
    inst: &InstanceId,
) -> Result<(), Refusal>
    requires fits { IsOf base.now case.now }
    requires declared { HasAttribute base.now.model attr }
    ensures ok { IfOk result (λ _. step.withdraw (shape_of base.now.model) base.now.ruled case.now attr inst.now ≡ Ok (answered case.now attr inst.now None)) }
    ensures may { IfOk result (λ _. IsAnswerable base.now case.now attr inst.now None) }
    ensures err { IfErr result (λ e. step.withdraw (shape_of base.now.model) base.now.ruled case.now attr inst.now ≡ Err e) }
{
    models_are_shapes();
    step_fits();
    if let Some(refusal) = case.withdraw_refusal(&base.model, &base.ruled, attr, inst) {
        return Err(refusal);
    }
    Ok(())
}
