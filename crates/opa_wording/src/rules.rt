// A rule is written as the lines of a block.
ghost use Rattle.std.specs.Prelude.{◌≡◌, ◌++◌, map, codes, OnOk, IfOk, []};
ghost use Rattle.std.specs.String.{string_bytes};
ghost use Rattle.opa_wording.specs.Lines.{line_text as line_text_of};
ghost use Rattle.opa_wording.specs.Rules.{written, items, ending as ending_of, group_text, cases, concluded, conditioned, rule_text as rule_text_of};
ghost use Rattle.opa_wording.specs.ReadBack.{ReadsBack};

use crate::lines::{attribute_phrase, line_text};
use opa_io::{NoMemory, front};
use opa_model::Model;
use opa_tree::{Expr, Row, Rule};
use std::alloc::Global;

/// Appends a line: its indentation, what stands on it, and how it ends.
#[tactic(auto, using(crate::proofs::RuleTexts::line_steps))]
fn push_written(out: &mut String, indent: &str, text: &str, ending: &str) -> Result<(), NoMemory>
    ensures { OnOk result (string_bytes out.new ≡ string_bytes out.old ++ written indent.now text.now ending.now) }
{
    out.push_str(indent)?;
    out.push_str(text)?;
    out.push_str(ending)?;
    out.push_str("\n")?;
    Ok(())
}

/// How an item ends that these follow.
fn ending<'t>(joint: &'t str, later: &[Expr], model: &Model) -> &'t str
    ensures { result.now ≡ ending_of joint.now (map (line_text_of model.now) later.now) }
{
    match later {
        [] => "",
        [_, ..] => joint,
    }
}

/// Appends a tree on a line of its own.
fn push_line(
    alloc: Global,
    out: &mut String,
    model: &Model,
    indent: &str,
    expr: &Expr,
    ending: &str,
) -> Result<(), NoMemory>
    ensures { OnOk result (string_bytes out.new ≡ string_bytes out.old ++ written indent.now (line_text_of model.now expr.now) ending.now) }
{
    let text = line_text(alloc, model, expr)?;
    push_written(out, indent, text.as_str(), ending)
}

/// Appends items, each but the last with the connector.
#[tactic(auto, using(crate::proofs::RuleTexts::text_moved))]
fn push_items(
    alloc: Global,
    out: &mut String,
    model: &Model,
    indent: &str,
    joint: &str,
    parts: &[Expr],
) -> Result<(), NoMemory>
    ensures { OnOk result (string_bytes out.new ≡ string_bytes out.old ++ items indent.now joint.now (map (line_text_of model.now) parts.now)) }
{
    let mut rest = parts;
    while let Some((part, later)) = front(rest) {
        push_line(alloc, out, model, indent, part, ending(joint, later, model))?;
        rest = later;
    }
    Ok(())
}

/// Appends a group.
#[tactic(auto, using(crate::proofs::RuleTexts::groups))]
fn push_group(
    alloc: Global,
    out: &mut String,
    model: &Model,
    indent: &str,
    expr: &Expr,
) -> Result<(), NoMemory>
    ensures { OnOk result (string_bytes out.new ≡ string_bytes out.old ++ group_text model.now indent.now expr.now) }
{
    match expr {
        Expr::All(parts) => push_items(alloc, out, model, indent, " and", parts.as_slice()),
        Expr::Any(parts) => push_items(alloc, out, model, indent, " or", parts.as_slice()),
        Expr::Const(_)
        | Expr::Attr(_)
        | Expr::Not(_)
        | Expr::Op(_, _)
        | Expr::Certain(_)
        | Expr::Known(_)
        | Expr::Over(_, _, _)
        | Expr::Window(_, _)
        | Expr::Rolling(_, _, _)
        | Expr::Table(_, _) => push_line(alloc, out, model, indent, expr, ""),
    }
}

/// Appends a value over the group that it asks for.
#[tactic(auto, using(crate::proofs::RuleTexts::line_steps))]
fn push_case(alloc: Global, out: &mut String, model: &Model, row: &Row) -> Result<(), NoMemory>
    ensures { OnOk result (string_bytes out.new ≡ string_bytes out.old ++ (written (codes "  ") (line_text_of model.now row.now.value) (codes " if") ++ group_text model.now (codes "    ") row.now.cond)) }
{
    push_line(alloc, out, model, "  ", &row.value, " if")?;
    push_group(alloc, out, model, "    ", &row.cond)
}

#[tactic(auto, using(crate::proofs::RuleTexts::text_moved))]
fn push_cases(alloc: Global, out: &mut String, model: &Model, rows: &[Row]) -> Result<(), NoMemory>
    ensures { OnOk result (string_bytes out.new ≡ string_bytes out.old ++ cases model.now rows.now) }
{
    let mut rest = rows;
    while let Some((row, later)) = front(rest) {
        push_case(alloc, out, model, row)?;
        rest = later;
    }
    Ok(())
}

/// Appends the lines of a table below its phrase.
#[tactic(auto, using(crate::proofs::RuleTexts::line_steps))]
fn push_table(
    alloc: Global,
    out: &mut String,
    model: &Model,
    phrase: &str,
    rows: &[Row],
    last: &Expr,
) -> Result<(), NoMemory>
    ensures { OnOk result (string_bytes out.new ≡ string_bytes out.old ++ (written [] phrase.now (codes " =") ++ (cases model.now rows.now ++ written (codes "  ") (line_text_of model.now last.now) (codes " otherwise")))) }
{
    push_written(out, "", phrase, " =")?;
    push_cases(alloc, out, model, rows)?;
    push_line(alloc, out, model, "  ", last, " otherwise")
}

/// Appends a phrase and what is concluded.
#[tactic(auto, using(crate::proofs::RuleTexts::conclusions))]
fn push_concluded(
    alloc: Global,
    out: &mut String,
    model: &Model,
    phrase: &str,
    expr: &Expr,
) -> Result<(), NoMemory>
    ensures { OnOk result (string_bytes out.new ≡ string_bytes out.old ++ concluded model.now phrase.now expr.now) }
{
    match expr {
        Expr::Table(rows, last) => {
            push_table(alloc, out, model, phrase, rows.as_slice(), last.get())
        }
        Expr::Const(_)
        | Expr::Attr(_)
        | Expr::All(_)
        | Expr::Any(_)
        | Expr::Not(_)
        | Expr::Op(_, _)
        | Expr::Certain(_)
        | Expr::Known(_)
        | Expr::Over(_, _, _)
        | Expr::Window(_, _)
        | Expr::Rolling(_, _, _) => push_equation(alloc, out, model, phrase, expr),
    }
}

fn push_equation(
    alloc: Global,
    out: &mut String,
    model: &Model,
    phrase: &str,
    expr: &Expr,
) -> Result<(), NoMemory>
    ensures { OnOk result (string_bytes out.new ≡ string_bytes out.old ++ written phrase.now (codes " = ") (line_text_of model.now expr.now)) }
{
    let text = line_text(alloc, model, expr)?;
    push_written(out, phrase, " = ", text.as_str())
}

/// Appends a phrase and the group of its conditions.
#[tactic(auto, using(crate::proofs::RuleTexts::line_steps))]
fn push_conditioned(
    alloc: Global,
    out: &mut String,
    model: &Model,
    phrase: &str,
    expr: &Expr,
) -> Result<(), NoMemory>
    ensures { OnOk result (string_bytes out.new ≡ string_bytes out.old ++ conditioned model.now phrase.now expr.now) }
{
    push_written(out, "", phrase, " if")?;
    push_group(alloc, out, model, "  ", expr)
}

/// Appends a rule.
fn push_rule(alloc: Global, out: &mut String, model: &Model, rule: &Rule) -> Result<(), NoMemory>
    ensures { OnOk result (string_bytes out.new ≡ string_bytes out.old ++ rule_text_of model.now rule.now) }
{
    let phrase = attribute_phrase(model, rule.attr);
    if rule.by_if {
        push_conditioned(alloc, out, model, phrase, &rule.expr)
    } else {
        push_concluded(alloc, out, model, phrase, &rule.expr)
    }
}

/// The text of a rule: its phrase and what it concludes. A rule with conditions has them line by line below its phrase, and
/// so has a table its cases.
pub fn rule_text(alloc: Global, model: &Model, rule: &Rule) -> Result<Vec<u8>, NoMemory>
    ensures written { IfOk result (λ text. text.items ≡ rule_text_of model.now rule.now) }
    // It reads back as that rule, where the rule is one that the grammar gives, and its text is within the limits.
    ensures back { IfOk result (λ text. ReadsBack model.now rule.now text.items) }
{
    let mut out = String::new(alloc);
    push_rule(alloc, &mut out, model, rule)?;
    Ok(out.into_bytes())
}
