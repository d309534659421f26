// Changes that are made by hand.
use crate::input::counted::applied;
use crate::input::points::{attribute, instance};
use crate::input::told::{Telling, told_after};
use crate::samples::texts;
use opa_case::{ChangeCommand, InstanceId, Refusal};
use opa_io::{List, NoMemory, Steps, Txt};
use opa_line::Line;
use opa_mean::Held;
use opa_model::{AttrId, EntityId, Model, RelId};
use opa_session::Session;
use opa_value::Value;
use std::alloc::Global;
use std::sync::ledger::Ledger;
use std::test::Fail;

/// True and false in turn, so many pairs.
fn alternating(alloc: Global, count: u32) -> Result<Line<Value>, Fail> {
    let mut pairs = Vec::new(alloc);
    for day in 0..count {
        pairs.push((day, Value::Bool(day % 2 == 0)))?;
    }
    let line = Line::from_pairs(alloc, pairs)?;
    Ok(line)
}

/// Makes a change of something that is declared.
fn made<L: Ledger>(
    alloc: Global,
    session: &mut Session<L>,
    change: ChangeCommand,
    steps: &mut Steps<L>,
) -> Result<(), Refusal> {
    if session.declares(&change) {
        applied(alloc, session, change, steps)?;
        Ok(())
    } else {
        Err(Refusal::Name)
    }
}

/// The answer that the claimant is an adult, by so many pairs.
fn long_answer(alloc: Global, model: &Model, count: u32) -> Result<ChangeCommand, Fail> {
    let attr = attribute(model, "the claimant is an adult")?;
    let inst = instance(alloc, model, attr, "")?;
    let line = alternating(alloc, count)?;
    Ok(ChangeCommand::Answer(attr, inst, line))
}

/// Why a session refuses an answer of so many pairs.
fn refused<L: Ledger>(
    alloc: Global,
    session: &mut Session<L>,
    count: u32,
    steps: &mut Steps<L>,
) -> Result<Option<Refusal>, Fail> {
    let change = long_answer(alloc, &session.base().model, count)?;
    Ok(made(alloc, session, change, steps).err())
}

#[derive(Clone, Copy)]
struct Pairs {
    count: u32,
}

impl Telling<Option<Refusal>> for Pairs {
    fn told<L: Ledger>(
        &self,
        alloc: Global,
        session: &mut Session<L>,
        steps: &mut Steps<L>,
    ) -> Result<Option<Refusal>, Fail> {
        refused(alloc, session, self.count, steps)
    }
}

/// Why an answer of so many pairs is refused.
fn refusal_of(alloc: Global, count: u32) -> Result<Option<Refusal>, Fail> {
    told_after(alloc, &[("main", texts::CLAIMANT)], &[], &Pairs { count })
}

#[test]
fn pairs_of_an_answer(rt: HostRuntime) -> Result<(), Fail> {
    for (count, want) in [(1_001, Some(Refusal::Limit)), (1_000, None)] {
        let refusal = refusal_of(rt.alloc(), count)?;
        assert_eq!(rt; refusal, want);
    }
    Ok(())
}

/// A withdrawal of a global answer.
fn withdrawal(alloc: Global, place: u32) -> Result<ChangeCommand, NoMemory> {
    let inst = InstanceId::global(alloc)?;
    Ok(ChangeCommand::Withdraw(AttrId(place), inst))
}

/// A list of no names.
fn no_names(alloc: Global, place: u32) -> Result<ChangeCommand, NoMemory> {
    let inst = InstanceId::global(alloc)?;
    Ok(ChangeCommand::SetList(RelId(place), inst, List::new(alloc)))
}

/// Whether a session declares an attribute and a relation with this number.
fn declared<L: Ledger>(
    alloc: Global,
    session: &Session<L>,
    place: u32,
) -> Result<(bool, bool), Fail> {
    let answer = withdrawal(alloc, place)?;
    let list = no_names(alloc, place)?;
    Ok((session.declares(&answer), session.declares(&list)))
}

#[derive(Clone, Copy)]
struct DeclaredTrial {
    place: u32,
}

impl Telling<(bool, bool)> for DeclaredTrial {
    fn told<L: Ledger>(
        &self,
        alloc: Global,
        session: &mut Session<L>,
        _steps: &mut Steps<L>,
    ) -> Result<(bool, bool), Fail> {
        declared(alloc, session, self.place)
    }
}

/// The same of the family's rulebase.
fn declares_both(alloc: Global, place: u32) -> Result<(bool, bool), Fail> {
    told_after(
        alloc,
        &[("main", texts::FAMILY)],
        &[],
        &DeclaredTrial { place },
    )
}

#[test]
fn what_is_declared(rt: HostRuntime) -> Result<(), Fail> {
    for (place, want) in [(0, true), (1, true), (2, false)] {
        let found = declares_both(rt.alloc(), place)?;
        assert_eq!(rt; found, (want, want));
    }
    Ok(())
}

/// Whether an attribute has a place at the instance of an entity with a name.
fn has_place<L: Ledger>(
    alloc: Global,
    session: &Session<L>,
    attr: u32,
    entity: u32,
    name: &str,
) -> Result<bool, Fail> {
    let inst = InstanceId {
        entity: EntityId(entity),
        name: Txt::from_str(alloc, name)?,
    };
    Ok(session.has_place(AttrId(attr), &inst))
}

#[derive(Clone, Copy)]
struct HasPlace<'a> {
    attr: u32,
    entity: u32,
    name: &'a str,
}

impl<'a> Telling<bool> for HasPlace<'a> {
    fn told<L: Ledger>(
        &self,
        alloc: Global,
        session: &mut Session<L>,
        _steps: &mut Steps<L>,
    ) -> Result<bool, Fail> {
        has_place(alloc, session, self.attr, self.entity, self.name)
    }
}

/// The same in Anna's family.
fn has_place_there(alloc: Global, attr: u32, entity: u32, name: &str) -> Result<bool, Fail> {
    let place = HasPlace { attr, entity, name };
    told_after(alloc, &[("main", texts::FAMILY)], &[ANNA], &place)
}

const ANNA: &str = "list the children = \"Anna\"";

#[test]
fn places(rt: HostRuntime) -> Result<(), Fail> {
    for (attr, entity, name, want) in [
        (0, 0, "", true),
        (1, 1, "Anna", true),
        (1, 1, "Ben", false),
        (1, 0, "", false),
        (0, 1, "Anna", false),
    ] {
        let found = has_place_there(rt.alloc(), attr, entity, name)?;
        assert_eq!(rt; found, want);
    }
    Ok(())
}
