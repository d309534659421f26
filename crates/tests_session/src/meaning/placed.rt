// Which instance an attribute or a list belongs to, in loaded rulebases.
use crate::input::told::{Telling, told_after};
use crate::samples::texts;
use opa_case::{Case, InstanceId};
use opa_io::{List, NoMemory, Steps, Txt};
use opa_mean::{Held, place_of};
use opa_model::EntityId;
use opa_session::Session;
use std::alloc::Global;
use std::sync::ledger::Ledger;
use std::test::Fail;

/// Enclosing instances, each by its entity and its name.
fn enclosing(alloc: Global, instances: &[(u32, &str)]) -> Result<List<InstanceId>, NoMemory> {
    let mut all = List::new(alloc);
    for (entity, name) in instances {
        all.push(InstanceId {
            entity: EntityId(*entity),
            name: Txt::from_str(alloc, name)?,
        })?;
    }
    Ok(all)
}

/// The name of the place of an entity; `nowhere` where it has none.
fn place_name(
    alloc: Global,
    case: &Case,
    instances: &[(u32, &str)],
    entity: u32,
) -> Result<String, Fail> {
    let enclosing = enclosing(alloc, instances)?;
    match place_of(case, &enclosing, EntityId(entity)) {
        Some(inst) => Ok(String::from_str(alloc, inst.name.as_str())?),
        None => Ok(String::from_str(alloc, "nowhere")?),
    }
}

/// The place of an entity, told as its name.
#[derive(Clone, Copy)]
struct Place<'a> {
    instances: &'a [(u32, &'a str)],
    entity: u32,
}

impl<'a> Telling<String> for Place<'a> {
    fn told<L: Ledger>(
        &self,
        alloc: Global,
        session: &mut Session<L>,
        _steps: &mut Steps<L>,
    ) -> Result<String, Fail> {
        place_name(alloc, session.case(), self.instances, self.entity)
    }
}

/// The same after a line of input.
fn place_after(
    alloc: Global,
    text: &str,
    line: &str,
    instances: &[(u32, &str)],
    entity: u32,
) -> Result<String, Fail> {
    told_after(
        alloc,
        &[("main", text)],
        &[line],
        &Place { instances, entity },
    )
}

const AN_ADULT: &str = "answer the claimant is an adult = uncertain";

const TWO_CHILDREN: &str = "list the children = \"Anna\", \"Ben\"";

#[test]
fn of_the_claimant(rt: HostRuntime) -> Result<(), Fail> {
    for (entity, want) in [(0, ""), (1, "nowhere")] {
        let place = place_after(rt.alloc(), texts::CLAIMANT, AN_ADULT, &[(0, "")], entity)?;
        assert_eq!(rt; place.as_str(), want);
    }
    Ok(())
}

#[test]
fn of_a_child(rt: HostRuntime) -> Result<(), Fail> {
    for (entity, want) in [(1, "Ben"), (0, "")] {
        let place = place_after(
            rt.alloc(),
            texts::FAMILY,
            TWO_CHILDREN,
            &[(1, "Ben")],
            entity,
        )?;
        assert_eq!(rt; place.as_str(), want);
    }
    Ok(())
}
