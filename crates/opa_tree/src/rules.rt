// Rules.
ghost use Rattle.std.specs.Prelude.{◌≡◌, IfOk, IfSome};
ghost use Rattle.std.specs.Option.{option_copied};
ghost use Rattle.std.proofs.Props.{props};
ghost use Rattle.opa_tree.specs.Places.{ArePlaces};
ghost use Rattle.opa_tree.specs.Rules.{rule_of};

use crate::Expr;
use crate::places::{Places, places_of};
use opa_io::{List, NoMemory, Txt};
use opa_model::{AttrId, RelId};
use std::alloc::Global;
use std::marker::Model;

/// A rule concludes an attribute from a tree. The file is a place in the rulebase's files. `by_if` holds for a rule that is
/// written as a conclusion, the word "if" and conditions.
#[derive(Debug, Drop)]
pub struct Rule {
    pub attr: AttrId,
    pub expr: Expr,
    pub file: u32,
    pub line: u32,
    pub by_if: bool,
}

/// Rules, which contracts see as their list. They may have the places of attributes' rules besides: then the rule of such an
/// attribute is found in constant time, and else by a walk over the list.
#[derive(Debug, Drop)]
pub struct Rules {
    rules: List<Rule>,
    places: Option<Places>,
    ghost placed: { IfSome places (ArePlaces rules) } by { Prim.hlevel props },
}

impl Model for Rules {
    ghost use Rattle.std.specs.Prelude.{List as Seq};
    ghost use Rattle.std.specs.Coded.{coded_list};
    ghost use Rattle.opa_tree.specs.declared.rules.Rule.{Rule as Each};
    ghost use Rattle.opa_tree.specs.contracts.rules.Rule as each;

    ghost Value = { Seq Each };

    ghost coded = { coded_list each.the_row.coded };

    ghost view = { λ r. r.rules };
}

impl Rules {
    pub fn from_list(rules: List<Rule>) -> Rules
        ensures { result ≡ rules }
    {
        Rules {
            rules,
            places: None,
        }
    }

    /// The same rules, with the places of the rules of so many attributes.
    pub fn with_places(self, alloc: Global, count: u32) -> Result<Rules, NoMemory>
        ensures { IfOk result (λ rules. rules ≡ self) }
    {
        let places = places_of(alloc, count, self.rules.as_slice())?;
        let Rules { rules, places: _ } = self;
        Ok(Rules {
            rules,
            places: Some(places),
        })
    }

    pub fn as_slice(&self) -> &[Rule]
        ensures { result.now ≡ self.now }
    {
        self.rules.as_slice()
    }

    /// The first rule of an attribute.
    pub fn of(&self, attr: AttrId) -> Option<&Rule>
        ensures { option_copied result ≡ rule_of self.now attr }
    {
        match &self.places {
            Some(places) => rule_by(self.rules.as_slice(), places.as_slice(), attr),
            None => rule_among(self.rules.as_slice(), attr),
        }
    }
}

fn rule_among(rules: &[Rule], attr: AttrId) -> Option<&Rule>
    ensures { option_copied result ≡ rule_of rules.now attr }
{
    rules.iter().find(|rule| rule.attr == attr)
}

/// By the places of rules, if they tell of the attribute.
fn rule_by<'a>(rules: &'a [Rule], places: &[Option<usize>], attr: AttrId) -> Option<&'a Rule>
    requires placed { ArePlaces rules.now places.now }
    ensures { option_copied result ≡ rule_of rules.now attr }
{
    match places.get(attr.0 as usize) {
        Some(Some(place)) => rules.get(*place),
        Some(None) => None,
        None => rule_among(rules, attr),
    }
}

/// The rank of each attribute, in declared order.
pub type Ranks = List<u32>;

/// A relationship whose members are concluded: its phrase, the relation that it is taken from, and what a member meets.
#[derive(Debug, Drop)]
pub struct Inferred {
    pub phrase: Txt,
    pub every: RelId,
    pub expr: Expr,
}

/// Inferred relationships, in written order.
pub type Inferences = List<Inferred>;
