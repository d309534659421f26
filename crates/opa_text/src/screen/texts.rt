// What a screen shows.
ghost use Rattle.std.specs.Prelude.{◌≡◌, ◌≤◌, ◌++◌, length, IfOk, OnOk};
ghost use Rattle.std.specs.List.{AllByRecursion};
ghost use Rattle.std.specs.String.{string_bytes};
ghost use Rattle.opa_text.specs.Screen.Screens as spec;
ghost use Rattle.opa_text.specs.Points.{HasAsked};

use crate::question_text;
use crate::screen::table::{lies_on, table_of};
use opa_case::Question;
use opa_io::{List, NoMemory, Txt, front};
use opa_model::Model;
use std::alloc::Global;

/// A screen with a number, from 1, or 0 for the one that isn't declared: `[TITLE]`, then two spaces and the question for
/// each of these questions that lies on it, each in a line of its own.
pub fn screen_text(
    alloc: Global,
    model: &Model,
    screen: u32,
    questions: &List<Question>,
) -> Result<Txt, NoMemory>
    requires screen { screen ≤ length model.now.screens }
    requires declared { AllByRecursion (HasAsked model.now) questions.now }
    ensures { IfOk result (λ text. text ≡ spec.screen_text model.now screen questions.now) }
{
    let heading = heading(alloc, model, screen)?;
    let lines = question_lines(alloc, model, screen, questions.as_slice())?;
    let text = format!(in alloc; "{}{}", heading.as_str(), lines.as_str())?;
    Ok(Txt::from_string(text))
}

/// `[TITLE]`
fn heading(alloc: Global, model: &Model, screen: u32) -> Result<Txt, NoMemory>
    requires { screen ≤ length model.now.screens }
    ensures { IfOk result (λ text. text ≡ spec.heading model.now screen) }
{
    if screen == 0 {
        return Txt::from_str(alloc, "[Questions]\n");
    }
    let title = &model.screen(screen - 1).title;
    let text = format!(in alloc; "[{}]\n", title.as_str())?;
    Ok(Txt::from_string(text))
}

/// A line for each of the questions that lie on the screen.
fn question_lines(
    alloc: Global,
    model: &Model,
    screen: u32,
    questions: &[Question],
) -> Result<Txt, NoMemory>
    requires { AllByRecursion (HasAsked model.now) questions.now }
    ensures { IfOk result (λ text. text ≡ spec.question_lines model.now (spec.shown_on model.now screen questions.now)) }
{
    let table = table_of(alloc, model)?;
    let mut out = String::new(alloc);
    let mut rest = questions;
    while let Some((question, later)) = front(rest) {
        if lies_on(model, &table, question, screen) {
            add_line(alloc, model, &mut out, question)?;
        }
        rest = later;
    }
    Ok(Txt::from_string(out))
}

/// Adds two spaces and what is asked, as a line.
fn add_line(
    alloc: Global,
    model: &Model,
    out: &mut String,
    question: &Question,
) -> Result<(), NoMemory>
    requires { HasAsked model.now question.now }
    ensures { OnOk result (string_bytes out.new ≡ string_bytes out.old ++ spec.question_line model.now question.now) }
{
    let asked = question_text(alloc, model, question)?;
    out.push_str("  ")?;
    out.push_str(asked.as_str())?;
    out.push_str("\n")?;
    Ok(())
}
