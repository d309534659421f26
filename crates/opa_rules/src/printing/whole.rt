// The text of a whole rulebase.

use crate::printing::blocks::push_blocks;
use crate::printing::screens::{push_goals, push_screens, push_verbs};
use opa_io::NoMemory;
use opa_model::Model;
use opa_tree::{Rule, Rulebase};
use opa_wording::rule_text;
use std::alloc::Global;

fn push_declared(alloc: Global, out: &mut String, model: &Model) -> Result<(), NoMemory> {
    push_verbs(out, model)?;
    push_blocks(alloc, out, model)?;
    push_screens(out, model)?;
    push_goals(out, model)
}

fn push_rules(
    alloc: Global,
    out: &mut Vec<u8>,
    model: &Model,
    rules: &[Rule],
) -> Result<(), NoMemory> {
    for rule in rules {
        let text = rule_text(alloc, model, rule)?;
        out.extend_from_slice(text.as_slice())?;
    }
    Ok(())
}

/// What is declared, and then the rules, each in its one spelling.
pub(crate) fn whole_text(alloc: Global, base: &Rulebase) -> Result<Vec<u8>, NoMemory> {
    let mut declared = String::new(alloc);
    push_declared(alloc, &mut declared, &base.model)?;
    let mut out = declared.into_bytes();
    push_rules(alloc, &mut out, &base.model, base.rules.as_slice())?;
    Ok(out)
}
