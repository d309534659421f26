// Compiled rules.
ghost use Rattle.std.specs.Prelude.{◌≡◌, map, find};
ghost use Rattle.std.specs.Coded.{coded_option};
ghost use Rattle.std.specs.Option.{option_copied};
ghost use Rattle.std.proofs.Props.{props};
ghost use Rattle.opa_case.specs.Shapes.{shape_of};
ghost use Rattle.opa_tree.specs.Places.{ArePlaces};
ghost use Rattle.opa_tree.specs.contracts.rules.Rule as each;
ghost use Rattle.opa_code.specs.Coding.{coded, is_for, AreCodesPlaced};

use crate::rule_code::RuleCode;
use opa_io::{List, Witness};
use opa_model::AttrId;
use opa_tree::{Places, Rulebase};

/// The rules of a rulebase as flat code, and their places. The rulebase itself is kept for proofs alone.
#[derive(Drop)]
pub struct Code {
    base: Witness<Rulebase>,
    rules: List<RuleCode>,
    places: Places,
    pub ghost compiled: { rules ≡ map (coded (shape_of base.is.model)) base.is.rules },
    ghost placed: { ArePlaces base.is.rules places } by { Prim.hlevel (props, coded_option, each.the_row.coded) },
}

impl Code {
    pub(crate) fn new(base: &Rulebase, rules: List<RuleCode>, places: Places) -> Code
        requires compiled { rules ≡ map (coded (shape_of base.now.model)) base.now.rules }
        requires placed { ArePlaces base.now.rules places }
        ensures { result.base.is ≡ base.now }
    {
        Code {
            base: Witness::of(base),
            rules,
            places,
        }
    }

    /// The code of an attribute's rule.
    pub(crate) fn of(&self, attr: AttrId) -> Option<&RuleCode>
        ensures { option_copied result ≡ find (is_for attr) self.now.rules }
    {
        let codes = self.rules.as_slice();
        let places = self.places.as_slice();
        code_by(codes, places, attr)
    }
}

fn code_among(codes: &[RuleCode], attr: AttrId) -> Option<&RuleCode>
    ensures { option_copied result ≡ find (is_for attr) codes.now }
{
    codes.iter().find(|code| code.attr == attr)
}

/// By the places of rules, if they tell of the attribute.
fn code_by<'a>(
    codes: &'a [RuleCode],
    places: &[Option<usize>],
    attr: AttrId,
) -> Option<&'a RuleCode>
    requires { AreCodesPlaced codes.now places.now }
    ensures { option_copied result ≡ find (is_for attr) codes.now }
{
    match places.get(attr.0 as usize) {
        Some(Some(place)) => codes.get(*place),
        Some(None) => None,
        None => code_among(codes, attr),
    }
}
