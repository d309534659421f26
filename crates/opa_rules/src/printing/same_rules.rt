// Whether two rulebases are the same but for places.
ghost use Rattle.std.specs.Prelude.{◌≡◌, IsTrue, map};
ghost use Rattle.opa_rules.specs.Printing.Same.{said, IsSame};

use crate::printing::same_models::same_model;
use opa_io::front;
use opa_mean::same_tree;
use opa_tree::{Rule, Rulebase};

/// Whether two rules say the same, wherever they stand.
fn same_rule(rule: &Rule, other: &Rule) -> bool
    ensures { IsTrue result → said rule.now ≡ said other.now }
{
    rule.attr == other.attr && rule.by_if == other.by_if && same_tree(&rule.expr, &other.expr)
}

fn same_rules(rules: &[Rule], others: &[Rule]) -> bool
    ensures { IsTrue result → map said rules.now ≡ map said others.now }
{
    let mut rest = rules;
    let mut more = others;
    while let Some((rule, later)) = front(rest) {
        let Some((other, further)) = front(more) else {
            return false;
        };
        if !same_rule(rule, other) {
            return false;
        }
        rest = later;
        more = further;
    }
    more.is_empty()
}

/// Whether two rulebases declare the same and have the same rules.
pub(crate) fn is_same(base: &Rulebase, other: &Rulebase) -> bool
    ensures { IsTrue result → IsSame base.now other.now }
{
    same_model(&base.model, &other.model)
        && same_rules(base.rules.as_slice(), other.rules.as_slice())
}
