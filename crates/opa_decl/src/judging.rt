// The model that items declare, and their first fault.
ghost use Rattle.std.specs.Prelude.{◌≡◌, ◌+◌, ◌<◌, ◌^◌, ◌∷◌, flat_map, map, length, IfOk};
ghost use Rattle.opa_tree.specs.FirstFaults.{first_of as first_of_two, first_fault};
ghost use Rattle.opa_decl.specs.Faults.{limit_faults, name_faults, scope_faults};
ghost use Rattle.opa_decl.specs.Judging.{AreJudged};
ghost use Rattle.opa_decl.specs.Lists.{global_entity, entity_in, attribute_in, relation_in, goal_by};
ghost use Rattle.opa_decl.specs.Seen.{seen};

use crate::drafting::{drafted, first_of_four};
use crate::drafts::Draft;
use crate::items::{Item, Name};
use crate::lists::{attributes, entities, goals, relations};
use crate::numbered::{Numbered, with_numbers};
use crate::over::first_over;
use crate::tables::Tables;
use crate::unknown::{first_astray, first_unknown};
use opa_io::{List, NoMemory};
use opa_model::{Attribute, Lists};
use opa_tree::RbFault;
use std::alloc::Global;

/// What items declare, and their first fault.
#[derive(Drop)]
pub struct Judged {
    pub lists: Lists,
    pub fault: Option<RbFault>,
}

/// The first fault of items that have numbers.
fn first_numbered(
    alloc: Global,
    tables: &Tables,
    attributes: &[Attribute],
    goals: &[Name],
    numbered: &[Numbered],
    twice: Option<RbFault>,
) -> Option<RbFault>
    ensures { result ≡ first_of_two (first_fault (flat_map limit_faults numbered.now)) (first_of_two (first_fault (flat_map (name_faults (seen tables.now)) numbered.now)) (first_of_two (first_fault (flat_map (scope_faults (seen tables.now) attributes.now) goals.now)) twice)) }
{
    let over = first_over(alloc, numbered);
    let unknown = first_unknown(alloc, tables, numbered);
    let astray = first_astray(alloc, tables, attributes, goals);
    first_of_four(over, unknown, astray, twice)
}

fn finish(alloc: Global, draft: Draft, numbered: &[Numbered]) -> Result<Judged, NoMemory>
    ensures entities { IfOk result (λ j. j.lists.entities ≡ global_entity ∷ flat_map (entity_in (seen draft.tables)) numbered.now) }
    ensures attributes { IfOk result (λ j. j.lists.attributes ≡ flat_map (attribute_in (seen draft.tables)) numbered.now) }
    ensures relations { IfOk result (λ j. j.lists.relations ≡ flat_map (relation_in (seen draft.tables)) numbered.now) }
    ensures verbs { IfOk result (λ j. j.lists.verbs ≡ draft.verbs) }
    ensures screens { IfOk result (λ j. j.lists.screens ≡ draft.screens) }
    ensures goals { IfOk result (λ j. j.lists.goals ≡ map (goal_by (seen draft.tables)) draft.goals) }
    ensures fault { IfOk result (λ j. j.fault ≡ first_of_two (first_fault (flat_map limit_faults numbered.now)) (first_of_two (first_fault (flat_map (name_faults (seen draft.tables)) numbered.now)) (first_of_two (first_fault (flat_map (scope_faults (seen draft.tables) j.lists.attributes) draft.goals)) draft.twice))) }
{
    let Draft {
        tables,
        verbs,
        screens,
        goals: named,
        twice,
    } = draft;
    let attributes = attributes(alloc, &tables, numbered)?;
    let entities = entities(alloc, &tables, numbered)?;
    let relations = relations(alloc, &tables, numbered)?;
    let goals = goals(alloc, &tables, named.as_slice())?;
    let fault = first_numbered(
        alloc,
        &tables,
        attributes.as_slice(),
        named.as_slice(),
        numbered,
        twice,
    );
    Ok(Judged {
        lists: Lists {
            entities,
            attributes,
            relations,
            verbs,
            screens,
            goals,
        },
        fault,
    })
}

/// What items declare, and their first fault.
pub fn judge(alloc: Global, items: List<Item>) -> Result<Judged, NoMemory>
    requires { length items + 1 < 2 ^ 32 }
    ensures { IfOk result (λ j. AreJudged j.lists j.fault items) }
{
    let draft = drafted(alloc, items.as_slice())?;
    let numbered = with_numbers(alloc, items)?;
    match finish(alloc, draft, numbered.as_slice()) {
        Err(error) => Err(error),
        Ok(judged) => Ok(judged),
    }
}
