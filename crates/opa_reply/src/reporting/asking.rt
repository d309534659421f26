// What is told of questions.
ghost use Rattle.std.specs.Prelude.{◌≡◌, ◌++◌, ◌∷◌, [], Some, IfOk};
ghost use Rattle.opa_need.specs.Goals.{next_of, relevant_to};
ghost use Rattle.opa_text.specs.Points.{HasAsked};
ghost use Rattle.opa_reply.specs.Reporting.Asking as meant;
ghost use Rattle.std.specs.List.{AllByRecursion};
ghost use Rattle.opa_text.specs.Screen.Screens.{screen_of as screen_number, screen_text as text_of_screen};

use opa_case::Question;
use opa_io::{List, NoMemory};
use opa_mean::{Frees, Held, asked_is_declared, next_is_declared, open_goal};
use opa_model::Model;
use opa_need::{next, relevant};
use opa_text::{question_text, screen_of, screen_text};
use std::alloc::Global;

/// The question that is asked next, or `no question`.
pub fn next_told<H: Held>(alloc: Global, held: &H) -> Result<Vec<u8>, NoMemory>
    ensures { IfOk result (λ t. t.items ≡ meant.next_told (H.rules held.now) (H.held held.now)) }
{
    let question = next(alloc, held)?;
    match &question {
        None => {
            let text = no_question(alloc)?;
            Ok(text)
        }
        Some(question) => {
            is_declared(held, question);
            let text = question_line(alloc, model_of(held), question)?;
            Ok(text)
        }
    }
}

pub(crate) fn model_of<H: Held>(held: &H) -> &Model
    ensures { result.now ≡ (H.rules held.now).model }
{
    &held.base().model
}

fn no_question(alloc: Global) -> Result<Vec<u8>, NoMemory>
    ensures { IfOk result (λ t. t.items ≡ meant.no_question) }
{
    Ok(b"no question\n".to_vec(alloc)?)
}

/// What is asked next is declared.
pub(crate) fn is_declared<H: Held>(held: &H, question: &Question)
    requires { next_of (H.rules held.now) (H.held held.now) ≡ Some question.now }
    ensures { HasAsked (H.rules held.now).model question.now }
{
    next_is_declared();
    // The case fits the rulebase.
    let _case = held.case();
}

/// A question, in a line of its own.
fn question_line(alloc: Global, model: &Model, question: &Question) -> Result<Vec<u8>, NoMemory>
    requires { HasAsked model.now question.now }
    ensures { IfOk result (λ t. t.items ≡ meant.asked model.now question.now ++ 10 ∷ []) }
{
    let asked = question_text(alloc, model, question)?;
    let text = format!(in alloc; "{}\n", asked.as_str())?;
    Ok(text.into_bytes())
}

/// The screen of the next question with those of the relevant questions of the first open goal that lie on it, or
/// `no question`.
pub fn screen_told<H: Held>(alloc: Global, held: &H, frees: &Frees) -> Result<Vec<u8>, NoMemory>
    ensures { IfOk result (λ t. t.items ≡ meant.screen_told (H.rules held.now) (H.held held.now)) }
{
    let question = next(alloc, held)?;
    match &question {
        None => {
            let text = no_question(alloc)?;
            Ok(text)
        }
        Some(question) => {
            let goal = open_goal(held, frees);
            let questions = relevant(alloc, held, goal)?;
            are_declared(held, goal, &questions);
            let text = screen_bytes(alloc, model_of(held), question, &questions)?;
            Ok(text)
        }
    }
}

/// The relevant questions of a goal are of what is declared.
fn are_declared<H: Held>(held: &H, goal: u32, questions: &List<Question>)
    requires { questions.now ≡ relevant_to (H.rules held.now) (H.held held.now) goal }
    ensures { AllByRecursion (HasAsked (H.rules held.now).model) questions.now }
{
    asked_is_declared();
    // The case fits the rulebase.
    let _case = held.case();
}

/// The screen of a question, with those of these questions that lie on it.
fn screen_bytes(
    alloc: Global,
    model: &Model,
    question: &Question,
    questions: &List<Question>,
) -> Result<Vec<u8>, NoMemory>
    requires { AllByRecursion (HasAsked model.now) questions.now }
    ensures { IfOk result (λ t. t.items ≡ text_of_screen model.now (screen_number model.now question.now) questions.now) }
{
    let number = screen_of(model, question);
    let text = screen_text(alloc, model, number, questions)?;
    Ok(text.as_str().as_bytes().to_vec(alloc)?)
}
