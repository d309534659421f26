// Where the rules of attributes stand.
ghost use Rattle.std.specs.Prelude.{ℕ, ◌≡◌, ◌<◌, None, Some, List as Seq, [], ◌∷◌, ◌++◌, length, replicate, IfOk};
ghost use Rattle.opa_tree.specs.declared.rules.Rule.{Rule as RuleView};
ghost use Rattle.opa_tree.specs.Places.{ArePlaces};

use crate::Rule;
use opa_io::{List, NoMemory};
use std::alloc::Global;

/// The place of the first rule of each of the first attributes, in declared order; an attribute without a rule has none.
pub type Places = List<Option<usize>>;

/// No attribute has a rule.
fn no_places(alloc: Global, count: u32) -> Result<Vec<Option<usize>>, NoMemory>
    ensures { IfOk result (λ places. places.items ≡ replicate count None) }
{
    let mut places = Vec::new(alloc);
    for _ in 0..count {
        places.push(None)?;
    }
    Ok(places)
}

/// Where two rules conclude one attribute, the first counts.
fn fill(places: &mut Vec<Option<usize>>, rule: &Rule, place: usize)
    requires known { rule.now.attr.0 < length places.old.items }
    ensures { (before : Seq RuleView) → place ≡ length before → ArePlaces before places.old.items → ArePlaces (before ++ rule.now ∷ []) places.new.items }
{
    let at = rule.attr.0 as usize;
    if places[at].is_none() {
        places[at] = Some(place);
    }
}

/// Where the attribute isn't one of the first ones, nothing is said of it.
fn add_place(places: &mut Vec<Option<usize>>, rule: &Rule, place: usize)
    ensures { (before : Seq RuleView) → place ≡ length before → ArePlaces before places.old.items → ArePlaces (before ++ rule.now ∷ []) places.new.items }
{
    if (rule.attr.0 as usize) < places.len() {
        fill(places, rule, place);
    }
}

/// The places of the rules of so many attributes.
pub fn places_of(alloc: Global, count: u32, rules: &[Rule]) -> Result<Places, NoMemory>
    ensures { IfOk result (ArePlaces rules.now) }
{
    let mut places = no_places(alloc, count)?;
    for place in 0..rules.len() {
        add_place(&mut places, &rules[place], place);
    }
    Ok(List::from_vec(places))
}
