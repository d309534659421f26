// What is true or false, as sentences.
ghost use Rattle.std.specs.Prelude.{◌≡◌, IfOk, IfSome};
ghost use Rattle.std.specs.Option.{option_copied};
ghost use Rattle.serde_json.specs.View.{view};
ghost use Rattle.opa_model.specs.Models.{HasVerb};
ghost use Rattle.opa_rules.specs.Describing.Parts as meant;

use crate::describing::parts::{text_json, text_or_null};
use opa_io::NoMemory;
use opa_model::{Model, Sentence, Verb};
use opa_verbs::{Form, say};
use serde_json::{Map, Value as Json, put};
use std::alloc::Global;

/// The denied sentence.
pub(crate) fn denied_json(
    alloc: Global,
    model: &Model,
    sentence: Option<&Sentence>,
) -> Result<Json, NoMemory>
    requires { IfSome (option_copied sentence) (HasVerb model.now) }
    ensures { IfOk result (λ v. view v ≡ meant.denied_data model.now (option_copied sentence.entry)) }
{
    match sentence {
        Some(sentence) => {
            let text = say(alloc, model, sentence, Form::Negative)?;
            text_or_null(alloc, Some(&text))
        }
        None => Ok(Json::Null),
    }
}

/// A sentence's parts, with the forms of its verb.
fn spoken_json(alloc: Global, sentence: &Sentence, verb: &Verb) -> Result<Json, NoMemory>
    ensures { IfOk result (λ v. view v ≡ meant.spoken_data sentence.now verb.now) }
{
    let ask = text_json(alloc, verb.ask.as_str())?;
    let denied = text_json(alloc, verb.negative.as_str())?;
    let rest = text_json(alloc, sentence.rest.as_str())?;
    let said = text_json(alloc, verb.positive.as_str())?;
    let subject = text_json(alloc, sentence.subject.as_str())?;
    let tail = text_json(alloc, verb.rest.as_str())?;
    let mut members = Map::new(alloc);
    put(&mut members, alloc, "ask", ask)?;
    put(&mut members, alloc, "denied", denied)?;
    put(&mut members, alloc, "rest", rest)?;
    put(&mut members, alloc, "said", said)?;
    put(&mut members, alloc, "subject", subject)?;
    put(&mut members, alloc, "tail", tail)?;
    Ok(Json::Object(members))
}

pub(crate) fn sentence_json(
    alloc: Global,
    model: &Model,
    sentence: Option<&Sentence>,
) -> Result<Json, NoMemory>
    requires { IfSome (option_copied sentence) (HasVerb model.now) }
    ensures { IfOk result (λ v. view v ≡ meant.sentence_data model.now (option_copied sentence.entry)) }
{
    match sentence {
        Some(sentence) => spoken_json(alloc, sentence, model.verb(sentence.verb)),
        None => Ok(Json::Null),
    }
}
