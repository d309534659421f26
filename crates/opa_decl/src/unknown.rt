// Names that aren't declared, and goals of another entity than the global one.
ghost use Rattle.std.specs.Prelude.{◌≡◌, flat_map, slice_get};
ghost use Rattle.opa_tree.specs.FirstFaults.{first_fault};
ghost use Rattle.opa_decl.specs.Faults.{unknown, unknown_parent, unknown_verb, unknown_item, unknown_names, name_faults, is_of_another, scope_faults};
ghost use Rattle.opa_decl.specs.Seen.{seen};

use crate::faults::when;
use crate::items::{Item, Name, Place, Sort};
use crate::numbered::{Counts, Numbered};
use crate::places::Places;
use crate::tables::Tables;
use opa_io::front;
use opa_model::Attribute;
use opa_tree::{RbFault, RbKind, first_of};
use std::alloc::Global;

/// A parent is declared earlier.
fn unknown_parent(
    alloc: Global,
    tables: &Tables,
    before: Counts,
    parent: &Option<Name>,
) -> Option<RbFault>
    ensures { result ≡ first_fault (unknown_parent (seen tables.now) before parent.now) }
{
    match parent {
        None => None,
        Some(name) => {
            let place = tables.entities.place(name.text.as_str());
            let is_unknown = !(1 + place < before.entities);
            when(alloc, is_unknown, RbKind::Name, name.place)
        }
    }
}

/// A verb is declared earlier.
fn unknown_verb(
    alloc: Global,
    tables: &Tables,
    before: Counts,
    place: Place,
    sort: &Sort,
) -> Option<RbFault>
    ensures { result ≡ first_fault (unknown_verb (seen tables.now) before place sort.now) }
{
    match sort {
        Sort::Bool(said) => {
            let is_unknown = !(tables.verbs.place(said.positive.as_str()) < before.verbs);
            when(alloc, is_unknown, RbKind::Name, place)
        }
        Sort::Number(_) => None,
        Sort::Currency(_) => None,
        Sort::Words => None,
        Sort::Date => None,
    }
}

fn unknown(alloc: Global, places: &Places, name: &Name) -> Option<RbFault>
    ensures { result ≡ first_fault (unknown places.now name.now) }
{
    let is_unknown = !places.is_declared(name.text.as_str());
    when(alloc, is_unknown, RbKind::Name, name.place)
}

/// What stands on a screen is an attribute or a relation.
fn unknown_item(alloc: Global, tables: &Tables, name: &Name) -> Option<RbFault>
    ensures { result ≡ first_fault (unknown_item (seen tables.now) name.now) }
{
    let is_attribute = tables.attributes.is_declared(name.text.as_str());
    let is_relation = tables.relations.is_declared(name.text.as_str());
    when(
        alloc,
        !(is_attribute || is_relation),
        RbKind::Name,
        name.place,
    )
}

#[tactic(auto, using(opa_tree::proofs::FirstFaultLaws::first_faults))]
fn unknown_items(alloc: Global, tables: &Tables, names: &[Name]) -> Option<RbFault>
    ensures { result ≡ first_fault (flat_map (unknown_item (seen tables.now)) names.now) }
{
    let mut first = None;
    let mut rest = names;
    while let Some((name, later)) = front(rest) {
        first = first_of(first, unknown_item(alloc, tables, name));
        rest = later;
    }
    first
}

fn unknown_names(alloc: Global, tables: &Tables, before: Counts, item: &Item) -> Option<RbFault>
    ensures { result ≡ first_fault (unknown_names (seen tables.now) before item.now) }
{
    match item {
        Item::Verb(_) => None,
        Item::Entity(entity) => unknown_parent(alloc, tables, before, &entity.parent),
        Item::Attribute(line) => {
            unknown_verb(alloc, tables, before, line.phrase.place, &line.sort)
        }
        Item::Relation(line) => unknown(alloc, &tables.entities, &line.target),
        Item::Goal(goal) => unknown(alloc, &tables.attributes, goal),
        Item::Screen(screen) => unknown_items(alloc, tables, screen.items.as_slice()),
        Item::File(_) => None,
    }
}

/// The first name that isn't declared.
#[tactic(auto, using(opa_tree::proofs::FirstFaultLaws::first_faults))]
pub fn first_unknown(alloc: Global, tables: &Tables, items: &[Numbered]) -> Option<RbFault>
    ensures { result ≡ first_fault (flat_map (name_faults (seen tables.now)) items.now) }
{
    let mut first = None;
    let mut rest = items;
    while let Some((numbered, later)) = front(rest) {
        let fault = unknown_names(alloc, tables, numbered.before, &numbered.item);
        first = first_of(first, fault);
        rest = later;
    }
    first
}

/// Whether an attribute at this place is of another entity than the global one.
fn is_of_another(attributes: &[Attribute], place: u32) -> bool
    ensures { result ≡ is_of_another (slice_get attributes.now place) }
{
    match attributes.get(place as usize) {
        None => false,
        Some(attribute) => attribute.entity.0 != 0,
    }
}

/// The first goal of another entity than the global one.
#[tactic(auto, using(opa_tree::proofs::FirstFaultLaws::first_faults))]
pub fn first_astray(
    alloc: Global,
    tables: &Tables,
    attributes: &[Attribute],
    goals: &[Name],
) -> Option<RbFault>
    ensures { result ≡ first_fault (flat_map (scope_faults (seen tables.now) attributes.now) goals.now) }
{
    let mut first = None;
    let mut rest = goals;
    while let Some((goal, later)) = front(rest) {
        let place = tables.attributes.place(goal.text.as_str());
        let fault = when(
            alloc,
            is_of_another(attributes, place),
            RbKind::Scope,
            goal.place,
        );
        first = first_of(first, fault);
        rest = later;
    }
    first
}
