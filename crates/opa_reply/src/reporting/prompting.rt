// What an interview prints before a line.
ghost use Rattle.std.specs.Prelude.{◌≡◌, ◌≤◌, ◌↔◌, length, IsTrue, IfOk};
ghost use Rattle.opa_mean.specs.Goals.Rulebases.{rulebase_of};
ghost use Rattle.opa_mean.specs.Goals.States.{AreAllKnown};
ghost use Rattle.opa_need.specs.Goals.{next_of};
ghost use Rattle.opa_text.specs.Screen.Screens.{title_or, numbered};
ghost use Rattle.opa_text.specs.Points.{HasAsked};
ghost use Rattle.opa_reply.specs.Reporting.Asking as meant;

use crate::reporting::asking::{is_declared, model_of};
use crate::reporting::goal_lines::goals_told;
use opa_case::Question;
use opa_io::NoMemory;
use opa_mean::{Frees, Held, are_all_known};
use opa_model::Model;
use opa_need::next;
use opa_text::{question_text, screen_of};
use std::alloc::Global;

/// What is printed, and whether the interview is over: every goal is known on every day.
#[derive(Drop)]
pub struct Prompt {
    pub text: Vec<u8>,
    pub over: bool,
}

/// Where every goal is known on every day, the lines of the goals; else `[TITLE] QUESTION` of the next question.
pub fn prompt_told<H: Held>(alloc: Global, held: &H, frees: &Frees) -> Result<Prompt, NoMemory>
    requires { rulebase_of frees.now ≡ H.rules held.now }
    ensures text { IfOk result (λ p. p.text.items ≡ meant.prompt_told (H.rules held.now) (H.held held.now)) }
    ensures over { IfOk result (λ p. p.over ≡ meant.is_over (H.rules held.now) (H.held held.now)) }
    ensures known { IfOk result (λ p. IsTrue p.over ↔ AreAllKnown (H.rules held.now) (H.held held.now)) }
{
    let over = are_all_known(held, frees);
    if over {
        let text = goals_told(alloc, held, frees)?;
        Ok(Prompt { text, over })
    } else {
        let text = next_titled(alloc, held)?;
        Ok(Prompt { text, over })
    }
}

/// The same, where the next question is at hand.
pub fn prompt_asking<H: Held>(
    alloc: Global,
    held: &H,
    frees: &Frees,
    asked: &Option<Question>,
) -> Result<Prompt, NoMemory>
    requires frees { rulebase_of frees.now ≡ H.rules held.now }
    requires asked { asked.now ≡ next_of (H.rules held.now) (H.held held.now) }
    ensures text { IfOk result (λ p. p.text.items ≡ meant.prompt_told (H.rules held.now) (H.held held.now)) }
    ensures over { IfOk result (λ p. p.over ≡ meant.is_over (H.rules held.now) (H.held held.now)) }
    ensures known { IfOk result (λ p. IsTrue p.over ↔ AreAllKnown (H.rules held.now) (H.held held.now)) }
{
    let over = are_all_known(held, frees);
    if over {
        let text = goals_told(alloc, held, frees)?;
        Ok(Prompt { text, over })
    } else {
        let text = asked_titled(alloc, held, asked)?;
        Ok(Prompt { text, over })
    }
}

/// The next question behind the title of its screen.
fn next_titled<H: Held>(alloc: Global, held: &H) -> Result<Vec<u8>, NoMemory>
    ensures { IfOk result (λ t. t.items ≡ meant.titled_or (H.rules held.now).model (next_of (H.rules held.now) (H.held held.now))) }
{
    let question = next(alloc, held)?;
    let text = asked_titled(alloc, held, &question)?;
    Ok(text)
}

fn asked_titled<H: Held>(
    alloc: Global,
    held: &H,
    asked: &Option<Question>,
) -> Result<Vec<u8>, NoMemory>
    requires { asked.now ≡ next_of (H.rules held.now) (H.held held.now) }
    ensures { IfOk result (λ t. t.items ≡ meant.titled_or (H.rules held.now).model (next_of (H.rules held.now) (H.held held.now))) }
{
    match asked {
        None => Ok(Vec::new(alloc)),
        Some(question) => {
            is_declared(held, question);
            let text = titled(alloc, model_of(held), question)?;
            Ok(text)
        }
    }
}

/// `[TITLE] QUESTION`
fn titled(alloc: Global, model: &Model, question: &Question) -> Result<Vec<u8>, NoMemory>
    requires { HasAsked model.now question.now }
    ensures { IfOk result (λ t. t.items ≡ meant.titled model.now question.now) }
{
    let number = screen_of(model, question);
    let title = title_of(model, number);
    let asked = question_text(alloc, model, question)?;
    let text = format!(in alloc; "[{}] {}\n", title, asked.as_str())?;
    Ok(text.into_bytes())
}

fn title_of(model: &Model, number: u32) -> &str
    requires { number ≤ length model.now.screens }
    ensures { result.now ≡ title_or (numbered model.now number) }
{
    if number == 0 {
        "Questions"
    } else {
        model.screen(number - 1).title.as_str()
    }
}
