// A tree is written as a line.
ghost use Rattle.std.specs.Prelude.{◌≡◌, ◌++◌, ◌∷◌, [], map, true, false, decimal, OnOk, IfOk};
ghost use Rattle.std.specs.String.{string_bytes};
ghost use Rattle.opa_model.specs.Lookups.{attribute_at, relation_at};
ghost use Rattle.opa_words.specs.Pieces.{word};
ghost use Rattle.opa_words.specs.Written.{gap, text_of};
ghost use Rattle.opa_wording.specs.Signs.{quant_text as quant_text_of, rolling_text as rolling_text_of};
ghost use Rattle.opa_wording.specs.Wordings.{token, bracketed, call, denial, in_brackets, listed, operation, over_days, part, phrase_of_attribute, phrase_of_relation, placed, separator as separator_of, together, wording};
ghost use Rattle.opa_wording.specs.Lines.{line_text as line_text_of};

use crate::Joint;
use crate::signs::{is_infix, op_text, quant_text, rolling_text, window_text};
use crate::tokens::{push_literal, push_phrase, push_token};
use opa_io::{NoMemory, Txt};
use opa_model::{AttrId, Model, RelId};
use opa_tree::{Expr, OpKind, Quant};
use std::alloc::Global;

pub fn attribute_phrase(model: &Model, attr: AttrId) -> &str
    ensures { result.now ≡ phrase_of_attribute (attribute_at model.now attr) }
{
    if attr.0 < model.attribute_count() {
        model.attribute(attr).phrase.as_str()
    } else {
        ""
    }
}

fn relation_phrase(model: &Model, rel: RelId) -> &str
    ensures { result.now ≡ phrase_of_relation (relation_at model.now rel) }
{
    if rel.0 < model.relation_count() {
        model.relation(rel).phrase.as_str()
    } else {
        ""
    }
}

fn push_separator(out: &mut String, joint: Joint) -> Result<(), NoMemory>
    ensures { OnOk result (string_bytes out.new ≡ string_bytes out.old ++ text_of (separator_of joint ∷ [])) }
{
    match joint {
        Joint::Comma => push_token(out, false, ","),
        Joint::And => push_token(out, true, "and"),
        Joint::Or => push_token(out, true, "or"),
        Joint::Sign(kind) => push_token(out, true, op_text(kind)),
    }
}

/// Appends the bracket that ends what another began.
fn push_end(out: &mut String) -> Result<(), NoMemory>
    ensures { OnOk result (string_bytes out.new ≡ string_bytes out.old ++ 41 ∷ []) }
{
    out.push_str(")")?;
    Ok(())
}

/// Appends a whole number.
fn push_number(alloc: Global, out: &mut String, number: u32) -> Result<(), NoMemory>
    ensures { OnOk result (string_bytes out.new ≡ string_bytes out.old ++ decimal number) }
{
    let text = format!(in alloc; "{number}")?;
    out.push_str(text.as_str())?;
    Ok(())
}

/// Appends a tree as a factor.
#[cycle(words)]
#[tactic(auto, using(crate::proofs::FactorTexts::factors))]
fn push_factor(
    alloc: Global,
    out: &mut String,
    model: &Model,
    is_spaced: bool,
    expr: &Expr,
) -> Result<(), NoMemory>
    ensures { OnOk result (string_bytes out.new ≡ string_bytes out.old ++ text_of ((wording model.now expr.now).as_factor is_spaced)) }
{
    match expr {
        Expr::Const(value) => push_literal(alloc, out, is_spaced, value),
        Expr::Attr(attr) => push_phrase(out, is_spaced, attribute_phrase(model, *attr)),
        Expr::All(parts) => {
            push_in_brackets(alloc, out, model, Joint::And, is_spaced, parts.as_slice())
        }
        Expr::Any(parts) => {
            push_in_brackets(alloc, out, model, Joint::Or, is_spaced, parts.as_slice())
        }
        Expr::Not(part) => push_denial(alloc, out, model, is_spaced, part.get()),
        Expr::Op(kind, parts) => {
            push_operation(alloc, out, model, *kind, is_spaced, parts.as_slice())
        }
        Expr::Certain(part) => push_call_of(alloc, out, model, "Certain", is_spaced, part.get()),
        Expr::Known(part) => {
            push_call_of(alloc, out, model, "CurrentlyKnown", is_spaced, part.get())
        }
        Expr::Over(quant, rel, parts) => {
            push_over(alloc, out, model, *quant, *rel, is_spaced, parts.as_slice())
        }
        Expr::Window(kind, parts) => {
            push_call(
                alloc,
                out,
                model,
                window_text(*kind),
                is_spaced,
                parts.as_slice(),
            )
        }
        Expr::Rolling(always, days, part) => {
            push_rolling(alloc, out, model, *always, *days, is_spaced, part.get())
        }
        Expr::Table(_, _) => Ok(()),
    }
}

#[cycle(words)]
#[tactic(auto, using(crate::proofs::TextLaws::steps))]
fn push_denial(
    alloc: Global,
    out: &mut String,
    model: &Model,
    is_spaced: bool,
    part: &Expr,
) -> Result<(), NoMemory>
    ensures { OnOk result (string_bytes out.new ≡ string_bytes out.old ++ text_of (denial is_spaced (wording model.now part.now))) }
{
    push_token(out, is_spaced, "not")?;
    push_factor(alloc, out, model, true, part)
}

/// Appends an operation as a factor.
#[cycle(words)]
fn push_operation(
    alloc: Global,
    out: &mut String,
    model: &Model,
    kind: OpKind,
    is_spaced: bool,
    parts: &[Expr],
) -> Result<(), NoMemory>
    ensures { OnOk result (string_bytes out.new ≡ string_bytes out.old ++ text_of ((operation kind (map (wording model.now) parts.now)).as_factor is_spaced)) }
{
    if is_infix(kind) {
        push_in_brackets(alloc, out, model, Joint::Sign(kind), is_spaced, parts)
    } else {
        push_call(alloc, out, model, op_text(kind), is_spaced, parts)
    }
}

/// Appends an operation as a line.
#[cycle(words)]
fn push_operation_line(
    alloc: Global,
    out: &mut String,
    model: &Model,
    kind: OpKind,
    is_spaced: bool,
    parts: &[Expr],
) -> Result<(), NoMemory>
    ensures { OnOk result (string_bytes out.new ≡ string_bytes out.old ++ text_of ((operation kind (map (wording model.now) parts.now)).as_line is_spaced)) }
{
    if is_infix(kind) {
        push_together(alloc, out, model, Joint::Sign(kind), is_spaced, true, parts)
    } else {
        push_call(alloc, out, model, op_text(kind), is_spaced, parts)
    }
}

/// Appends a tree as a line.
#[cycle(words)]
#[tactic(auto, using(crate::proofs::FactorTexts::lines))]
fn push_line(
    alloc: Global,
    out: &mut String,
    model: &Model,
    is_spaced: bool,
    expr: &Expr,
) -> Result<(), NoMemory>
    ensures { OnOk result (string_bytes out.new ≡ string_bytes out.old ++ text_of ((wording model.now expr.now).as_line is_spaced)) }
{
    match expr {
        Expr::Op(kind, parts) => {
            push_operation_line(alloc, out, model, *kind, is_spaced, parts.as_slice())
        }
        Expr::Const(_)
        | Expr::Attr(_)
        | Expr::All(_)
        | Expr::Any(_)
        | Expr::Not(_)
        | Expr::Certain(_)
        | Expr::Known(_)
        | Expr::Over(_, _, _)
        | Expr::Window(_, _)
        | Expr::Rolling(_, _, _)
        | Expr::Table(_, _) => push_factor(alloc, out, model, is_spaced, expr),
    }
}

/// Appends a line in brackets.
#[cycle(words)]
#[tactic(auto, using(crate::proofs::TextLaws::steps))]
fn push_line_in_brackets(
    alloc: Global,
    out: &mut String,
    model: &Model,
    is_spaced: bool,
    expr: &Expr,
) -> Result<(), NoMemory>
    ensures { OnOk result (string_bytes out.new ≡ string_bytes out.old ++ text_of (bracketed is_spaced ((wording model.now expr.now).as_line false))) }
{
    push_token(out, is_spaced, "(")?;
    push_line(alloc, out, model, false, expr)?;
    push_end(out)
}

/// Appends parts in brackets.
#[cycle(words)]
#[tactic(auto, using(crate::proofs::TextLaws::steps))]
fn push_in_brackets(
    alloc: Global,
    out: &mut String,
    model: &Model,
    joint: Joint,
    is_spaced: bool,
    parts: &[Expr],
) -> Result<(), NoMemory>
    ensures { OnOk result (string_bytes out.new ≡ string_bytes out.old ++ text_of (in_brackets joint is_spaced (map (wording model.now) parts.now))) }
{
    push_token(out, is_spaced, "(")?;
    push_together(alloc, out, model, joint, false, true, parts)?;
    push_end(out)
}

/// Appends a name and lines in brackets.
#[cycle(words)]
#[tactic(auto, using(crate::proofs::TextLaws::steps))]
fn push_call(
    alloc: Global,
    out: &mut String,
    model: &Model,
    name: &str,
    is_spaced: bool,
    parts: &[Expr],
) -> Result<(), NoMemory>
    ensures { OnOk result (string_bytes out.new ≡ string_bytes out.old ++ text_of (call is_spaced (word name.now) (map (wording model.now) parts.now))) }
{
    push_token(out, is_spaced, name)?;
    push_in_brackets(alloc, out, model, Joint::Comma, false, parts)
}

/// Appends a name and one line in brackets.
#[cycle(words)]
#[tactic(auto, using(crate::proofs::TextLaws::steps))]
fn push_call_of(
    alloc: Global,
    out: &mut String,
    model: &Model,
    name: &str,
    is_spaced: bool,
    part: &Expr,
) -> Result<(), NoMemory>
    ensures { OnOk result (string_bytes out.new ≡ string_bytes out.old ++ text_of (call is_spaced (word name.now) (wording model.now part.now ∷ []))) }
{
    push_token(out, is_spaced, name)?;
    push_line_in_brackets(alloc, out, model, false, part)
}

/// Appends a quantifier.
#[cycle(words)]
#[tactic(auto, using(crate::proofs::TextLaws::steps))]
fn push_over(
    alloc: Global,
    out: &mut String,
    model: &Model,
    quant: Quant,
    rel: RelId,
    is_spaced: bool,
    parts: &[Expr],
) -> Result<(), NoMemory>
    ensures { OnOk result (string_bytes out.new ≡ string_bytes out.old ++ text_of (token is_spaced (word (quant_text_of quant)) ∷ bracketed false (listed model.now rel (map (wording model.now) parts.now)))) }
{
    push_token(out, is_spaced, quant_text(quant))?;
    push_listed_in_brackets(alloc, out, model, rel, parts)
}

#[cycle(words)]
#[tactic(auto, using(crate::proofs::TextLaws::steps))]
fn push_listed_in_brackets(
    alloc: Global,
    out: &mut String,
    model: &Model,
    rel: RelId,
    parts: &[Expr],
) -> Result<(), NoMemory>
    ensures { OnOk result (string_bytes out.new ≡ string_bytes out.old ++ text_of (bracketed false (listed model.now rel (map (wording model.now) parts.now)))) }
{
    push_token(out, false, "(")?;
    push_listed(alloc, out, model, rel, parts)?;
    push_end(out)
}

#[cycle(words)]
#[tactic(auto, using(crate::proofs::TextLaws::steps))]
fn push_listed(
    alloc: Global,
    out: &mut String,
    model: &Model,
    rel: RelId,
    parts: &[Expr],
) -> Result<(), NoMemory>
    ensures { OnOk result (string_bytes out.new ≡ string_bytes out.old ++ text_of (listed model.now rel (map (wording model.now) parts.now))) }
{
    push_phrase(out, false, relation_phrase(model, rel))?;
    push_together(alloc, out, model, Joint::Comma, true, false, parts)
}

/// Appends a function over the last days.
#[cycle(words)]
#[tactic(auto, using(crate::proofs::TextLaws::steps))]
fn push_rolling(
    alloc: Global,
    out: &mut String,
    model: &Model,
    always: bool,
    days: u32,
    is_spaced: bool,
    part: &Expr,
) -> Result<(), NoMemory>
    ensures { OnOk result (string_bytes out.new ≡ string_bytes out.old ++ text_of (token is_spaced (word (rolling_text_of always)) ∷ bracketed false (over_days days (wording model.now part.now)))) }
{
    push_token(out, is_spaced, rolling_text(always))?;
    push_days_in_brackets(alloc, out, model, days, part)
}

#[cycle(words)]
#[tactic(auto, using(crate::proofs::TextLaws::steps))]
fn push_days_in_brackets(
    alloc: Global,
    out: &mut String,
    model: &Model,
    days: u32,
    part: &Expr,
) -> Result<(), NoMemory>
    ensures { OnOk result (string_bytes out.new ≡ string_bytes out.old ++ text_of (bracketed false (over_days days (wording model.now part.now)))) }
{
    push_token(out, false, "(")?;
    push_over_days(alloc, out, model, days, part)?;
    push_end(out)
}

#[cycle(words)]
#[tactic(auto, using(crate::proofs::TextLaws::steps))]
fn push_over_days(
    alloc: Global,
    out: &mut String,
    model: &Model,
    days: u32,
    part: &Expr,
) -> Result<(), NoMemory>
    ensures { OnOk result (string_bytes out.new ≡ string_bytes out.old ++ text_of (over_days days (wording model.now part.now))) }
{
    push_number(alloc, out, days)?;
    push_separator(out, Joint::Comma)?;
    push_line(alloc, out, model, true, part)
}

/// Appends one of several parts.
#[cycle(words)]
fn push_placed(
    alloc: Global,
    out: &mut String,
    model: &Model,
    joint: Joint,
    is_spaced: bool,
    part: &Expr,
) -> Result<(), NoMemory>
    ensures { OnOk result (string_bytes out.new ≡ string_bytes out.old ++ text_of (placed joint is_spaced (wording model.now part.now))) }
{
    match joint {
        Joint::Comma => push_line(alloc, out, model, is_spaced, part),
        Joint::And => push_line_in_brackets(alloc, out, model, is_spaced, part),
        Joint::Or => push_line_in_brackets(alloc, out, model, is_spaced, part),
        Joint::Sign(_) => push_factor(alloc, out, model, is_spaced, part),
    }
}

#[cycle(words)]
#[tactic(auto, using(crate::proofs::TextLaws::steps))]
fn push_part(
    alloc: Global,
    out: &mut String,
    model: &Model,
    joint: Joint,
    is_spaced: bool,
    is_first: bool,
    expr: &Expr,
) -> Result<(), NoMemory>
    ensures { OnOk result (string_bytes out.new ≡ string_bytes out.old ++ text_of (part joint is_spaced is_first (wording model.now expr.now))) }
{
    if is_first {
        push_placed(alloc, out, model, joint, is_spaced, expr)
    } else {
        push_separator(out, joint)?;
        push_placed(alloc, out, model, joint, true, expr)
    }
}

/// Appends parts, of which the first may stand first of all.
#[cycle(words)]
fn push_together(
    alloc: Global,
    out: &mut String,
    model: &Model,
    joint: Joint,
    is_spaced: bool,
    is_first: bool,
    parts: &[Expr],
) -> Result<(), NoMemory>
    ensures { OnOk result (string_bytes out.new ≡ string_bytes out.old ++ text_of (together joint is_spaced is_first (map (wording model.now) parts.now))) }
{
    let mut first = is_first;
    for part in parts {
        push_part(alloc, out, model, joint, is_spaced, first, part)?;
        first = false;
    }
    Ok(())
}

/// The text of a tree as a line, with brackets wherever what stands there could be read otherwise. A table has none.
pub fn line_text(alloc: Global, model: &Model, expr: &Expr) -> Result<Txt, NoMemory>
    ensures { IfOk result (λ t. t ≡ line_text_of model.now expr.now) }
{
    let mut out = String::new(alloc);
    push_line(alloc, &mut out, model, false, expr)?;
    Ok(Txt::from_string(out))
}
