// What is known of items before they have numbers is found.
ghost use Rattle.std.specs.Prelude.{◌≡◌, ◌+◌, ◌<◌, ◌^◌, [], flat_map, length, IfOk};
ghost use Rattle.opa_tree.specs.FirstFaults.{first_of as first_of_two, first_fault};
ghost use Rattle.opa_decl.specs.Faults.{repeated, twice_faults};
ghost use Rattle.opa_decl.specs.Judging.{IsDraft};
ghost use Rattle.opa_decl.specs.Names.{verb_in, verb_name, entity_name, goal_name, screen_name, file_name, forms};
ghost use Rattle.opa_decl.specs.Seen.{seen};

use crate::drafts::Draft;
use crate::items::Item;
use crate::lists::{screens, verbs};
use crate::names::{entity_names, file_names, goal_names, screen_names, verb_names};
use crate::tables::Tables;
use crate::tabling::tables_of;
use crate::twice::first_repeated;
use crate::wording::forms as forms_of;
use opa_io::NoMemory;
use opa_model::Verb;
use opa_tree::{RbFault, first_of};
use std::alloc::Global;

/// The first of four faults.
pub fn first_of_four(
    a: Option<RbFault>,
    b: Option<RbFault>,
    c: Option<RbFault>,
    d: Option<RbFault>,
) -> Option<RbFault>
    ensures { result ≡ first_of_two a (first_of_two b (first_of_two c d)) }
{
    first_of(a, first_of(b, first_of(c, d)))
}

/// The first of names that stands a second time.
fn twice_verb(alloc: Global, items: &[Item]) -> Result<Option<RbFault>, NoMemory>
    ensures { IfOk result (λ fault. fault ≡ first_fault (repeated [] (flat_map verb_name items.now))) }
{
    let names = verb_names(alloc, items)?;
    first_repeated(alloc, names.as_slice())
}

fn twice_entity(alloc: Global, items: &[Item]) -> Result<Option<RbFault>, NoMemory>
    ensures { IfOk result (λ fault. fault ≡ first_fault (repeated [] (flat_map entity_name items.now))) }
{
    let names = entity_names(alloc, items)?;
    first_repeated(alloc, names.as_slice())
}

fn twice_form(
    alloc: Global,
    tables: &Tables,
    verbs: &[Verb],
    items: &[Item],
) -> Result<Option<RbFault>, NoMemory>
    ensures { IfOk result (λ fault. fault ≡ first_fault (repeated [] (flat_map (forms (seen tables.now).verbs verbs.now) items.now))) }
{
    let names = forms_of(alloc, &tables.verbs, verbs, items)?;
    first_repeated(alloc, names.as_slice())
}

fn twice_goal(alloc: Global, items: &[Item]) -> Result<Option<RbFault>, NoMemory>
    ensures { IfOk result (λ fault. fault ≡ first_fault (repeated [] (flat_map goal_name items.now))) }
{
    let names = goal_names(alloc, items)?;
    first_repeated(alloc, names.as_slice())
}

fn twice_shown(alloc: Global, items: &[Item]) -> Result<Option<RbFault>, NoMemory>
    ensures { IfOk result (λ fault. fault ≡ first_fault (repeated [] (flat_map screen_name items.now))) }
{
    let names = screen_names(alloc, items)?;
    first_repeated(alloc, names.as_slice())
}

fn twice_file(alloc: Global, items: &[Item]) -> Result<Option<RbFault>, NoMemory>
    ensures { IfOk result (λ fault. fault ≡ first_fault (repeated [] (flat_map file_name items.now))) }
{
    let names = file_names(alloc, items)?;
    first_repeated(alloc, names.as_slice())
}

/// The first thing that stands a second time.
fn first_twice(
    alloc: Global,
    tables: &Tables,
    verbs: &[Verb],
    items: &[Item],
) -> Result<Option<RbFault>, NoMemory>
    requires { verbs.now ≡ flat_map verb_in items.now }
    ensures { IfOk result (λ fault. fault ≡ first_fault (twice_faults (seen tables.now) items.now)) }
{
    let verb = twice_verb(alloc, items)?;
    let entity = twice_entity(alloc, items)?;
    let form = twice_form(alloc, tables, verbs, items)?;
    let goal = twice_goal(alloc, items)?;
    let shown = twice_shown(alloc, items)?;
    let file = twice_file(alloc, items)?;
    let later = first_of_four(form, goal, shown, file);
    Ok(first_of(verb, first_of(entity, later)))
}

/// What is known of items before they have numbers.
pub fn drafted(alloc: Global, items: &[Item]) -> Result<Draft, NoMemory>
    requires { length items.now + 1 < 2 ^ 32 }
    ensures { IfOk result (λ d. IsDraft d items.now) }
{
    let tables = tables_of(alloc, items)?;
    let verbs = verbs(alloc, items)?;
    let screens = screens(alloc, &tables, items)?;
    let goals = goal_names(alloc, items)?;
    let twice = first_twice(alloc, &tables, verbs.as_slice(), items)?;
    Ok(Draft {
        tables,
        verbs,
        screens,
        goals,
        twice,
    })
}
