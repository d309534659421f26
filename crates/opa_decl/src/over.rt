// What is over its number.
ghost use Rattle.std.specs.Prelude.{◌≡◌, ◌++◌, flat_map};
ghost use Rattle.opa_io.specs.declared.limits.TheConstants.{MOST_PHRASE};
ghost use Rattle.opa_tree.specs.FirstFaults.{first_fault};
ghost use Rattle.opa_decl.specs.Faults.{over, over_parent, long_names, too_many, limit_faults};

use crate::faults::when;
use crate::items::{EntityLines, Item, Name, RelationLine, ScreenLines};
use crate::numbered::{Counts, Numbered, is_every};
use opa_io::front;
use opa_io::limits::{MOST_ATTRIBUTES, MOST_EVERY, MOST_FILE_NAME, MOST_PHRASE};
use opa_tree::{RbFault, RbKind, first_of};
use std::alloc::Global;

fn over(alloc: Global, most: usize, name: &Name) -> Option<RbFault>
    ensures { result ≡ first_fault (over most name.now) }
{
    let is_long = most < name.text.as_str().len();
    when(alloc, is_long, RbKind::Limit, name.place)
}

fn over_parent(alloc: Global, parent: &Option<Name>) -> Option<RbFault>
    ensures { result ≡ first_fault (over_parent parent.now) }
{
    match parent {
        None => None,
        Some(name) => over(alloc, MOST_PHRASE, name),
    }
}

/// The first of names that is too long.
#[tactic(auto, using(opa_tree::proofs::FirstFaultLaws::first_faults))]
fn over_all(alloc: Global, names: &[Name]) -> Option<RbFault>
    ensures { result ≡ first_fault (flat_map (over MOST_PHRASE) names.now) }
{
    let mut first = None;
    let mut rest = names;
    while let Some((name, later)) = front(rest) {
        first = first_of(first, over(alloc, MOST_PHRASE, name));
        rest = later;
    }
    first
}

#[tactic(auto, using(opa_tree::proofs::FirstFaultLaws::first_faults))]
fn long_entity(alloc: Global, entity: &EntityLines) -> Option<RbFault>
    ensures { result ≡ first_fault (over MOST_PHRASE entity.now.phrase ++ (over_parent entity.now.parent ++ over MOST_PHRASE entity.now.inside)) }
{
    let phrase = over(alloc, MOST_PHRASE, &entity.phrase);
    let parent = over_parent(alloc, &entity.parent);
    let inside = over(alloc, MOST_PHRASE, &entity.inside);
    first_of(phrase, first_of(parent, inside))
}

#[tactic(auto, using(opa_tree::proofs::FirstFaultLaws::first_faults))]
fn long_relation(alloc: Global, line: &RelationLine) -> Option<RbFault>
    ensures { result ≡ first_fault (over MOST_PHRASE line.now.phrase ++ over MOST_PHRASE line.now.target) }
{
    let phrase = over(alloc, MOST_PHRASE, &line.phrase);
    let target = over(alloc, MOST_PHRASE, &line.target);
    first_of(phrase, target)
}

#[tactic(auto, using(opa_tree::proofs::FirstFaultLaws::first_faults))]
fn long_screen(alloc: Global, screen: &ScreenLines) -> Option<RbFault>
    ensures { result ≡ first_fault (over MOST_PHRASE screen.now.title ++ flat_map (over MOST_PHRASE) screen.now.items) }
{
    let title = over(alloc, MOST_PHRASE, &screen.title);
    let items = over_all(alloc, screen.items.as_slice());
    first_of(title, items)
}

/// A phrase, title or file name that is too long.
fn long_names(alloc: Global, item: &Item) -> Option<RbFault>
    ensures { result ≡ first_fault (long_names item.now) }
{
    match item {
        Item::Verb(_) => None,
        Item::Entity(entity) => long_entity(alloc, entity),
        Item::Attribute(line) => over(alloc, MOST_PHRASE, &line.phrase),
        Item::Relation(line) => long_relation(alloc, line),
        Item::Goal(goal) => over(alloc, MOST_PHRASE, goal),
        Item::Screen(screen) => long_screen(alloc, screen),
        Item::File(file) => over(alloc, MOST_FILE_NAME, file),
    }
}

/// An attribute, or an `every` line, behind too many others.
fn too_many(alloc: Global, before: Counts, item: &Item) -> Option<RbFault>
    ensures { result ≡ first_fault (too_many before item.now) }
{
    match item {
        Item::Attribute(line) => {
            let is_over = MOST_ATTRIBUTES <= before.attributes;
            when(alloc, is_over, RbKind::Limit, line.phrase.place)
        }
        Item::Relation(line) => {
            let is_over = is_every(line.reach) && MOST_EVERY <= before.every;
            when(alloc, is_over, RbKind::Limit, line.phrase.place)
        }
        Item::Verb(_) => None,
        Item::Entity(_) => None,
        Item::Goal(_) => None,
        Item::Screen(_) => None,
        Item::File(_) => None,
    }
}

#[tactic(auto, using(opa_tree::proofs::FirstFaultLaws::first_faults))]
fn limit_fault(alloc: Global, numbered: &Numbered) -> Option<RbFault>
    ensures { result ≡ first_fault (limit_faults numbered.now) }
{
    let long = long_names(alloc, &numbered.item);
    let many = too_many(alloc, numbered.before, &numbered.item);
    first_of(long, many)
}

/// The first thing that is over its number.
#[tactic(auto, using(opa_tree::proofs::FirstFaultLaws::first_faults))]
pub fn first_over(alloc: Global, items: &[Numbered]) -> Option<RbFault>
    ensures { result ≡ first_fault (flat_map limit_faults items.now) }
{
    let mut first = None;
    let mut rest = items;
    while let Some((item, later)) = front(rest) {
        first = first_of(first, limit_fault(alloc, item));
        rest = later;
    }
    first
}
