// The text of a question.
ghost use Rattle.std.specs.Prelude.{◌≡◌, ◌++◌, Some, IfOk, IfSome};
ghost use Rattle.opa_model.specs.Models.{HasVerb, HasAttribute};
ghost use Rattle.opa_model.specs.Lookups.{attribute_at};
ghost use Rattle.opa_text.specs.Points.{question_text as question_text_of, asked as asked_of, asked_attribute as asked_attribute_of, asked_at, HasAsked};

use crate::points::instance_part;
use opa_case::Question;
use opa_cells::InstanceId;
use opa_io::{NoMemory, Txt};
use opa_model::{AttrId, Attribute, Model};
use opa_verbs::{Form, say};
use std::alloc::Global;

/// What is asked: `is the child at school of "Ben"?`, `what is the income?`, `which are the children?`.
pub fn question_text(alloc: Global, model: &Model, question: &Question) -> Result<Txt, NoMemory>
    requires { HasAsked model.now question.now }
    ensures { IfOk result (λ t. question_text_of model.now question.now ≡ Some t) }
{
    let asked = asked(alloc, model, question)?;
    let of = instance_part(alloc, asked_at(question))?;
    let text = format!(in alloc; "{}{}?", asked.as_str(), of.as_str())?;
    Ok(Txt::from_string(text))
}

fn asked_at(question: &Question) -> &InstanceId
    ensures { result.now ≡ asked_at question.now }
{
    match question {
        Question::Attr(_, inst) => inst,
        Question::Members(_, inst) => inst,
    }
}

/// Without the instance.
fn asked(alloc: Global, model: &Model, question: &Question) -> Result<Txt, NoMemory>
    requires { HasAsked model.now question.now }
    ensures { IfOk result (λ t. asked_of model.now question.now ≡ Some t) }
{
    match question {
        Question::Attr(attr, _) => asked_attribute(alloc, model, declared(model, *attr)),
        Question::Members(rel, _) => {
            let text = format!(in alloc; "which are {}", model.relation(*rel).phrase.as_str())?;
            Ok(Txt::from_string(text))
        }
    }
}

/// A declared attribute, whose verb is declared.
fn declared(model: &Model, attr: AttrId) -> &Attribute
    requires { HasAttribute model.now attr }
    ensures at { attribute_at model.now attr ≡ Some result.now }
    ensures verb { IfSome result.now.sentence (HasVerb model.now) }
{
    let _count = model.attribute_count();
    model.attribute(attr)
}

/// Its question, and where it has no sentence `what is PHRASE`.
fn asked_attribute(alloc: Global, model: &Model, attribute: &Attribute) -> Result<Txt, NoMemory>
    requires { IfSome attribute.now.sentence (HasVerb model.now) }
    ensures { IfOk result (λ t. asked_attribute_of model.now attribute.now.sentence attribute.now.phrase ≡ Some t) }
{
    match &attribute.sentence {
        Some(sentence) => say(alloc, model, sentence, Form::Question),
        None => {
            let text = format!(in alloc; "what is {}", attribute.phrase.as_str())?;
            Ok(Txt::from_string(text))
        }
    }
}
