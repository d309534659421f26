// From a rulebase to its code.
ghost use Rattle.std.specs.Prelude.{◌≡◌, map, IfOk};
ghost use Rattle.opa_case.specs.Shapes.{shape_of};
ghost use Rattle.opa_code.specs.Coding.{coded};
ghost use Rattle.opa_code.specs.Rulebases.{rulebase_of};

use crate::Code;
use crate::gather::nodes_in;
use crate::rule_code::RuleCode;
use opa_io::{List, NoMemory};
use opa_mean::is_money;
use opa_model::Model;
use opa_tree::{Rule, Rulebase, places_of};
use std::alloc::Global;

/// The code of a rulebase.
pub fn compile(alloc: Global, base: &Rulebase) -> Result<Code, NoMemory>
    ensures { IfOk result (λ code. rulebase_of code ≡ base.now) }
{
    let rules = code_each(alloc, &base.model, base.rules.as_slice())?;
    let count = base.model.attribute_count();
    let places = places_of(alloc, count, base.rules.as_slice())?;
    Ok(Code::new(base, rules, places))
}

fn code_each(alloc: Global, model: &Model, rules: &[Rule]) -> Result<List<RuleCode>, NoMemory>
    ensures { IfOk result (λ codes. codes ≡ map (coded (shape_of model.now)) rules.now) }
{
    let mut codes = List::new(alloc);
    for rule in rules {
        codes.push(code_of(alloc, model, rule)?)?;
    }
    Ok(codes)
}

fn code_of(alloc: Global, model: &Model, rule: &Rule) -> Result<RuleCode, NoMemory>
    ensures { IfOk result (λ code. code ≡ coded (shape_of model.now) rule.now) }
{
    let nodes = nodes_in(alloc, model, &rule.expr)?;
    Ok(RuleCode {
        attr: rule.attr,
        money: is_money(model, rule.attr),
        nodes,
    })
}
