// Attributes.
ghost use Rattle.std.specs.Prelude.{◌≡◌, ◌<◌, Some, IfOk, IfSome};
ghost use Rattle.std.specs.Option.{option_copied};
ghost use Rattle.serde_json.specs.View.{view};
ghost use Rattle.opa_cells.specs.Instances.{global};
ghost use Rattle.opa_case.specs.declared.question.Question.TheVariants as question;
ghost use Rattle.opa_model.specs.Lookups.{attribute_at};
ghost use Rattle.opa_model.specs.Models.{HasAttribute, HasVerb};
ghost use Rattle.opa_text.specs.Points.{HasAsked};
ghost use Rattle.opa_tree.specs.Rules.{rule_of};
ghost use Rattle.opa_rules.specs.Describing.Description as meant;
ghost use Rattle.opa_rules.specs.Describing.Parts as part;

use crate::describing::objects::{Elsewhere, attribute_object};
use crate::describing::origins::origin_json;
use crate::describing::parts::{text_json, text_or_null};
use crate::describing::sentences::{denied_json, sentence_json};
use opa_case::Question;
use opa_cells::InstanceId;
use opa_io::NoMemory;
use opa_model::{AttrId, Attribute, Model};
use opa_text::{question_text, screen_of};
use opa_tree::Rulebase;
use serde_json::Value as Json;
use std::alloc::Global;

/// The question for the case itself.
pub(crate) fn question_json(
    alloc: Global,
    model: &Model,
    question: &Question,
) -> Result<Json, NoMemory>
    requires { HasAsked model.now question.now }
    ensures { IfOk result (λ v. view v ≡ meant.question_data model.now question.now) }
{
    let text = question_text(alloc, model, question)?;
    text_or_null(alloc, Some(&text))
}

/// The title of the screen that shows what is asked.
pub(crate) fn screen_name(
    alloc: Global,
    model: &Model,
    question: &Question,
) -> Result<Json, NoMemory>
    ensures { IfOk result (λ v. view v ≡ meant.screen_name model.now question.now) }
{
    let number = screen_of(model, question);
    if number == 0 {
        Ok(Json::Null)
    } else {
        text_json(alloc, model.screen(number - 1).title.as_str())
    }
}

/// A declared attribute, whose verb is declared.
fn declared(model: &Model, id: AttrId) -> &Attribute
    requires { HasAttribute model.now id }
    ensures at { attribute_at model.now id ≡ Some result.now }
    ensures verb { IfSome result.now.sentence (HasVerb model.now) }
{
    // The count shows the model's form.
    let _count = model.attribute_count();
    model.attribute(id)
}

fn said_elsewhere(
    alloc: Global,
    base: &Rulebase,
    id: AttrId,
    attribute: &Attribute,
) -> Result<Elsewhere, NoMemory>
    requires declared { HasAttribute base.now.model id }
    requires verb { IfSome attribute.now.sentence (HasVerb base.now.model) }
    ensures denied { IfOk result (λ e. view e.denied ≡ part.denied_data base.now.model attribute.now.sentence) }
    ensures question { IfOk result (λ e. view e.question ≡ meant.question_data base.now.model (question.Attr id global)) }
    ensures rule { IfOk result (λ e. view e.rule ≡ part.rule_data base.now.model base.now.files (rule_of base.now.rules id)) }
    ensures screen { IfOk result (λ e. view e.screen ≡ meant.screen_name base.now.model (question.Attr id global)) }
{
    let model = &base.model;
    let asked = Question::Attr(id, InstanceId::global(alloc)?);
    Ok(Elsewhere {
        denied: denied_json(alloc, model, attribute.sentence.as_ref())?,
        question: question_json(alloc, model, &asked)?,
        rule: origin_json(alloc, model, base.files.as_slice(), base.rules.of(id))?,
        screen: screen_name(alloc, model, &asked)?,
    })
}

pub(crate) fn attribute_json(alloc: Global, base: &Rulebase, id: AttrId) -> Result<Json, NoMemory>
    requires { HasAttribute base.now.model id }
    ensures { IfOk result (λ v. view v ≡ meant.attribute_data base.now id.0) }
{
    let attribute = declared(&base.model, id);
    let sentence = sentence_json(alloc, &base.model, attribute.sentence.as_ref())?;
    let elsewhere = said_elsewhere(alloc, base, id, attribute)?;
    let json = attribute_object(alloc, &base.model, attribute, elsewhere, sentence)?;
    Ok(json)
}
