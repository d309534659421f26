// Verbs, screens and goals.

use crate::printing::names::{attribute_phrase, item_phrase};
use opa_io::NoMemory;
use opa_model::{Item, Model, Screen, Verb};
use opa_words::push_quoted;

/// Appends what stands behind all else, where there is something.
pub(crate) fn push_rest(out: &mut String, rest: &str) -> Result<(), NoMemory> {
    if !rest.is_empty() {
        out.push_str(" ")?;
        out.push_str(rest)?;
    }
    Ok(())
}

fn push_verb(out: &mut String, verb: &Verb) -> Result<(), NoMemory> {
    out.push_str("verb ")?;
    out.push_str(verb.positive.as_str())?;
    out.push_str(" / ")?;
    out.push_str(verb.negative.as_str())?;
    out.push_str(" / ")?;
    out.push_str(verb.ask.as_str())?;
    out.push_str(" /")?;
    push_rest(out, verb.rest.as_str())?;
    out.push_str("\n")?;
    Ok(())
}

pub(crate) fn push_verbs(out: &mut String, model: &Model) -> Result<(), NoMemory> {
    for n in 0..model.verb_count() {
        push_verb(out, model.verb(n))?;
    }
    Ok(())
}

/// Appends what a screen shows.
fn push_items(out: &mut String, model: &Model, items: &[Item]) -> Result<(), NoMemory> {
    for item in items {
        out.push_str("  ")?;
        out.push_str(item_phrase(model, item))?;
        out.push_str("\n")?;
    }
    Ok(())
}

fn push_screen(out: &mut String, model: &Model, screen: &Screen) -> Result<(), NoMemory> {
    out.push_str("screen ")?;
    push_quoted(out, screen.title.as_str())?;
    out.push_str("\n")?;
    push_items(out, model, screen.items.as_slice())
}

pub(crate) fn push_screens(out: &mut String, model: &Model) -> Result<(), NoMemory> {
    for n in 0..model.screen_count() {
        push_screen(out, model, model.screen(n))?;
    }
    Ok(())
}

pub(crate) fn push_goals(out: &mut String, model: &Model) -> Result<(), NoMemory> {
    for n in 0..model.goal_count() {
        out.push_str("goal ")?;
        out.push_str(attribute_phrase(model, model.goal(n)))?;
        out.push_str("\n")?;
    }
    Ok(())
}
