// Relations: lists of instances.
ghost use Rattle.std.specs.Prelude.{◌≡◌, IfOk};
ghost use Rattle.serde_json.specs.View.{view};
ghost use Rattle.opa_cells.specs.Instances.{global};
ghost use Rattle.opa_case.specs.declared.question.Question.TheVariants as question;
ghost use Rattle.opa_model.specs.Models.{HasRelation};
ghost use Rattle.opa_text.specs.Points.{HasAsked};
ghost use Rattle.opa_rules.specs.Describing.Description as meant;

use crate::describing::attributes::{question_json, screen_name};
use crate::describing::objects::relation_object;
use opa_case::Question;
use opa_cells::InstanceId;
use opa_io::NoMemory;
use opa_model::{Model, RelId};
use serde_json::Value as Json;
use std::alloc::Global;

/// What is asked, unless all instances are listed.
fn asked_json(
    alloc: Global,
    model: &Model,
    every: bool,
    question: &Question,
) -> Result<Json, NoMemory>
    requires { HasAsked model.now question.now }
    ensures { IfOk result (λ v. view v ≡ meant.asked_data every model.now question.now) }
{
    if every {
        Ok(Json::Null)
    } else {
        question_json(alloc, model, question)
    }
}

pub(crate) fn relation_json(alloc: Global, model: &Model, id: RelId) -> Result<Json, NoMemory>
    requires { HasRelation model.now id }
    ensures { IfOk result (λ v. view v ≡ meant.relation_data model.now id.0) }
{
    let relation = model.relation(id);
    let question = Question::Members(id, InstanceId::global(alloc)?);
    let asked = asked_json(alloc, model, relation.every, &question)?;
    let screen = screen_name(alloc, model, &question)?;
    let json = relation_object(alloc, model, relation, asked, screen)?;
    Ok(json)
}
