// Rules with rows whose last value is the literal `uncertain`.
ghost use Rattle.std.specs.Prelude.{◌≡◌, ◌++◌, flat_map, OnOk};
ghost use Rattle.opa_rules.specs.Reviewing.Endings as meant;

use crate::reviewing::finding::{Finding, UncertainEnding};
use crate::same_trees::is_same;
use opa_io::{List, NoMemory};
use opa_tree::{Expr, Rule};
use opa_value::Value;

fn is_uncertain(expr: &Expr) -> bool
    ensures { result ≡ meant.is_uncertain expr.now }
{
    is_same(expr, &Expr::Const(Value::Uncertain))
}

/// Whether a tree is a table with this last value.
#[tactic(auto, using(crate::proofs::reviewing::EndingLaws::ending_laws))]
fn ends_uncertain(expr: &Expr) -> bool
    ensures { result ≡ meant.ends_uncertain expr.now }
{
    match expr {
        Expr::Table(_, last) => is_uncertain(last.get()),
        Expr::Const(_)
        | Expr::Attr(_)
        | Expr::All(_)
        | Expr::Any(_)
        | Expr::Not(_)
        | Expr::Op(_, _)
        | Expr::Certain(_)
        | Expr::Known(_)
        | Expr::Over(_, _, _)
        | Expr::Window(_, _)
        | Expr::Rolling(_, _, _) => false,
    }
}

fn push_ending(findings: &mut List<Finding>, rule: &Rule) -> Result<(), NoMemory>
    ensures { OnOk result (findings.new ≡ findings.old ++ meant.ending_of rule.now) }
{
    if !ends_uncertain(&rule.expr) {
        return Ok(());
    }
    findings.push(Finding::Ending(UncertainEnding {
        attr: rule.attr,
        file: rule.file,
        line: rule.line,
    }))
}

/// Adds the rules that end so.
pub(crate) fn push_endings(findings: &mut List<Finding>, rules: &[Rule]) -> Result<(), NoMemory>
    ensures { OnOk result (findings.new ≡ findings.old ++ flat_map meant.ending_of rules.now) }
{
    for rule in rules {
        push_ending(findings, rule)?;
    }
    Ok(())
}
