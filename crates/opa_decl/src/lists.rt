// The lists of the model.
ghost use Rattle.std.specs.Prelude.{◌≡◌, ◌++◌, ◌∷◌, [], flat_map, map, IfOk, OnOk};
ghost use Rattle.opa_decl.specs.Lists.{global_entity, owner, kind_of, no_bounds, bounds_in, sentence_in, entity_named, parent_of, entity_in, attribute_in, relation_in, source, shown, screen_by, goal_by};
ghost use Rattle.opa_decl.specs.Names.{verb_in, sentence};
ghost use Rattle.opa_decl.specs.Seen.{seen};

use crate::items::{AttributeLine, Bounds, Item, Name, Said, Sort};
use crate::numbered::{Numbered, is_every, is_one};
use crate::places::Places;
use crate::tables::Tables;
use opa_io::{List, NoMemory, Txt, front};
use opa_model::{
    AttrId, Attribute, Entity, EntityId, Item as Shown, Kind, RelId, Relation, Screen, Sentence,
    Verb,
};
use std::alloc::Global;

/// The first entity.
fn global_entity(alloc: Global) -> Result<Entity, NoMemory>
    ensures { IfOk result (λ e. e ≡ global_entity) }
{
    Ok(Entity {
        phrase: Txt::from_str(alloc, "")?,
        parent: EntityId(0),
        contained: RelId(0),
    })
}

/// The entity of a line: the global one, or the last that is declared.
fn owner(numbered: &Numbered, of_global: bool) -> EntityId
    ensures { result ≡ owner numbered.now of_global }
{
    if of_global {
        EntityId(0)
    } else {
        EntityId(numbered.before.entities.saturating_sub(1))
    }
}

fn kind_of(sort: &Sort) -> Kind
    ensures { result ≡ kind_of sort.now }
{
    match sort {
        Sort::Bool(_) => Kind::Bool,
        Sort::Number(_) => Kind::Number,
        Sort::Currency(_) => Kind::Currency,
        Sort::Words => Kind::Words,
        Sort::Date => Kind::Date,
    }
}

fn no_bounds() -> Bounds
    ensures { result ≡ no_bounds }
{
    Bounds {
        least: 0,
        most: 0,
        decimals: 0,
    }
}

fn bounds_in(sort: &Sort) -> Bounds
    ensures { result ≡ bounds_in sort.now }
{
    match sort {
        Sort::Bool(_) => no_bounds(),
        Sort::Number(bounds) => *bounds,
        Sort::Currency(bounds) => *bounds,
        Sort::Words => no_bounds(),
        Sort::Date => no_bounds(),
    }
}

fn sentence(alloc: Global, verb_names: &Places, said: &Said) -> Result<Sentence, NoMemory>
    ensures { IfOk result (λ s. s ≡ sentence verb_names.now said.now) }
{
    Ok(Sentence {
        subject: said.subject.copy(alloc)?,
        verb: verb_names.place(said.positive.as_str()),
        rest: said.rest.copy(alloc)?,
    })
}

fn sentence_in(
    alloc: Global,
    verb_names: &Places,
    sort: &Sort,
) -> Result<Option<Sentence>, NoMemory>
    ensures { IfOk result (λ s. s ≡ sentence_in verb_names.now sort.now) }
{
    match sort {
        Sort::Bool(said) => Ok(Some(sentence(alloc, verb_names, said)?)),
        Sort::Number(_) => Ok(None),
        Sort::Currency(_) => Ok(None),
        Sort::Words => Ok(None),
        Sort::Date => Ok(None),
    }
}

/// Entities are counted behind the global one.
fn entity_named(tables: &Tables, text: &str) -> EntityId
    ensures { result ≡ entity_named (seen tables.now) text.now }
{
    EntityId(1 + tables.entities.place(text))
}

fn parent_of(tables: &Tables, parent: &Option<Name>) -> EntityId
    ensures { result ≡ parent_of (seen tables.now) parent.now }
{
    match parent {
        None => EntityId(0),
        Some(name) => entity_named(tables, name.text.as_str()),
    }
}

fn add_entity(
    alloc: Global,
    tables: &Tables,
    numbered: &Numbered,
    entities: &mut List<Entity>,
) -> Result<(), NoMemory>
    ensures { OnOk result (entities.new ≡ entities.old ++ entity_in (seen tables.now) numbered.now) }
{
    match &numbered.item {
        Item::Entity(entity) => entities.push(Entity {
            phrase: entity.phrase.text.copy(alloc)?,
            parent: parent_of(tables, &entity.parent),
            contained: RelId(numbered.before.relations),
        }),
        Item::Verb(_) => Ok(()),
        Item::Attribute(_) => Ok(()),
        Item::Relation(_) => Ok(()),
        Item::Goal(_) => Ok(()),
        Item::Screen(_) => Ok(()),
        Item::File(_) => Ok(()),
    }
}

/// An attribute of this owner.
fn attribute(
    alloc: Global,
    tables: &Tables,
    entity: EntityId,
    line: &AttributeLine,
) -> Result<Attribute, NoMemory>
    ensures { IfOk result (λ a. a ≡ record { entity = entity; kind = kind_of line.now.sort; phrase = line.now.phrase.text; sentence = sentence_in (seen tables.now).verbs line.now.sort; least = (bounds_in line.now.sort).least; most = (bounds_in line.now.sort).most; decimals = (bounds_in line.now.sort).decimals }) }
{
    let bounds = bounds_in(&line.sort);
    Ok(Attribute {
        entity,
        kind: kind_of(&line.sort),
        phrase: line.phrase.text.copy(alloc)?,
        sentence: sentence_in(alloc, &tables.verbs, &line.sort)?,
        least: bounds.least,
        most: bounds.most,
        decimals: bounds.decimals,
    })
}

fn add_attribute(
    alloc: Global,
    tables: &Tables,
    numbered: &Numbered,
    attributes: &mut List<Attribute>,
) -> Result<(), NoMemory>
    ensures { OnOk result (attributes.new ≡ attributes.old ++ attribute_in (seen tables.now) numbered.now) }
{
    match &numbered.item {
        Item::Attribute(line) => {
            let entity = owner(numbered, line.of_global);
            attributes.push(attribute(alloc, tables, entity, line)?)
        }
        Item::Verb(_) => Ok(()),
        Item::Entity(_) => Ok(()),
        Item::Relation(_) => Ok(()),
        Item::Goal(_) => Ok(()),
        Item::Screen(_) => Ok(()),
        Item::File(_) => Ok(()),
    }
}

/// An `every` line is of the global entity.
fn source(numbered: &Numbered, every: bool, of_global: bool) -> EntityId
    ensures { result ≡ source numbered.now every of_global }
{
    if every {
        EntityId(0)
    } else {
        owner(numbered, of_global)
    }
}

fn add_relation(
    alloc: Global,
    tables: &Tables,
    numbered: &Numbered,
    relations: &mut List<Relation>,
) -> Result<(), NoMemory>
    ensures { OnOk result (relations.new ≡ relations.old ++ relation_in (seen tables.now) numbered.now) }
{
    match &numbered.item {
        Item::Entity(entity) => relations.push(Relation {
            phrase: entity.inside.text.copy(alloc)?,
            source: parent_of(tables, &entity.parent),
            target: EntityId(numbered.before.entities),
            contains: true,
            one: false,
            every: false,
        }),
        Item::Relation(line) => relations.push(Relation {
            phrase: line.phrase.text.copy(alloc)?,
            source: source(numbered, is_every(line.reach), line.of_global),
            target: entity_named(tables, line.target.text.as_str()),
            contains: false,
            one: is_one(line.reach),
            every: is_every(line.reach),
        }),
        Item::Verb(_) => Ok(()),
        Item::Attribute(_) => Ok(()),
        Item::Goal(_) => Ok(()),
        Item::Screen(_) => Ok(()),
        Item::File(_) => Ok(()),
    }
}

/// An attribute or a relation on a screen.
fn shown(tables: &Tables, name: &Name) -> Shown
    ensures { result ≡ shown (seen tables.now) name.now }
{
    let text = name.text.as_str();
    if tables.attributes.is_declared(text) {
        Shown::Attr(AttrId(tables.attributes.place(text)))
    } else {
        Shown::Members(RelId(tables.relations.place(text)))
    }
}

fn all_shown(alloc: Global, tables: &Tables, names: &[Name]) -> Result<List<Shown>, NoMemory>
    ensures { IfOk result (λ items. items ≡ map (shown (seen tables.now)) names.now) }
{
    let mut items = List::new(alloc);
    let mut rest = names;
    while let Some((name, later)) = front(rest) {
        items.push(shown(tables, name))?;
        rest = later;
    }
    Ok(items)
}

fn add_screen(
    alloc: Global,
    tables: &Tables,
    item: &Item,
    screens: &mut List<Screen>,
) -> Result<(), NoMemory>
    ensures { OnOk result (screens.new ≡ screens.old ++ screen_by (seen tables.now) item.now) }
{
    match item {
        Item::Screen(screen) => screens.push(Screen {
            title: screen.title.text.copy(alloc)?,
            items: all_shown(alloc, tables, screen.items.as_slice())?,
        }),
        Item::Verb(_) => Ok(()),
        Item::Entity(_) => Ok(()),
        Item::Attribute(_) => Ok(()),
        Item::Relation(_) => Ok(()),
        Item::Goal(_) => Ok(()),
        Item::File(_) => Ok(()),
    }
}

fn copy_of(alloc: Global, verb: &Verb) -> Result<Verb, NoMemory>
    ensures { IfOk result (λ v. v ≡ verb.now) }
{
    Ok(Verb {
        positive: verb.positive.copy(alloc)?,
        negative: verb.negative.copy(alloc)?,
        ask: verb.ask.copy(alloc)?,
        rest: verb.rest.copy(alloc)?,
    })
}

fn add_verb(alloc: Global, item: &Item, verbs: &mut List<Verb>) -> Result<(), NoMemory>
    ensures { OnOk result (verbs.new ≡ verbs.old ++ verb_in item.now) }
{
    match item {
        Item::Verb(line) => verbs.push(copy_of(alloc, &line.verb)?),
        Item::Entity(_) => Ok(()),
        Item::Attribute(_) => Ok(()),
        Item::Relation(_) => Ok(()),
        Item::Goal(_) => Ok(()),
        Item::Screen(_) => Ok(()),
        Item::File(_) => Ok(()),
    }
}

/// The verbs.
pub fn verbs(alloc: Global, items: &[Item]) -> Result<List<Verb>, NoMemory>
    ensures { IfOk result (λ list. list ≡ flat_map verb_in items.now) }
{
    let mut list = List::new(alloc);
    let mut rest = items;
    while let Some((item, later)) = front(rest) {
        add_verb(alloc, item, &mut list)?;
        rest = later;
    }
    Ok(list)
}

/// The global entity and the others.
pub fn entities(
    alloc: Global,
    tables: &Tables,
    items: &[Numbered],
) -> Result<List<Entity>, NoMemory>
    ensures { IfOk result (λ list. list ≡ global_entity ∷ flat_map (entity_in (seen tables.now)) items.now) }
{
    let mut list = List::new(alloc);
    list.push(global_entity(alloc)?)?;
    let mut rest = items;
    while let Some((item, later)) = front(rest) {
        add_entity(alloc, tables, item, &mut list)?;
        rest = later;
    }
    Ok(list)
}

/// The attributes.
pub fn attributes(
    alloc: Global,
    tables: &Tables,
    items: &[Numbered],
) -> Result<List<Attribute>, NoMemory>
    ensures { IfOk result (λ list. list ≡ flat_map (attribute_in (seen tables.now)) items.now) }
{
    let mut list = List::new(alloc);
    let mut rest = items;
    while let Some((item, later)) = front(rest) {
        add_attribute(alloc, tables, item, &mut list)?;
        rest = later;
    }
    Ok(list)
}

/// The relations.
pub fn relations(
    alloc: Global,
    tables: &Tables,
    items: &[Numbered],
) -> Result<List<Relation>, NoMemory>
    ensures { IfOk result (λ list. list ≡ flat_map (relation_in (seen tables.now)) items.now) }
{
    let mut list = List::new(alloc);
    let mut rest = items;
    while let Some((item, later)) = front(rest) {
        add_relation(alloc, tables, item, &mut list)?;
        rest = later;
    }
    Ok(list)
}

/// The screens.
pub fn screens(alloc: Global, tables: &Tables, items: &[Item]) -> Result<List<Screen>, NoMemory>
    ensures { IfOk result (λ list. list ≡ flat_map (screen_by (seen tables.now)) items.now) }
{
    let mut list = List::new(alloc);
    let mut rest = items;
    while let Some((item, later)) = front(rest) {
        add_screen(alloc, tables, item, &mut list)?;
        rest = later;
    }
    Ok(list)
}

/// The goals.
pub fn goals(alloc: Global, tables: &Tables, names: &[Name]) -> Result<List<AttrId>, NoMemory>
    ensures { IfOk result (λ list. list ≡ map (goal_by (seen tables.now)) names.now) }
{
    let mut list = List::new(alloc);
    let mut rest = names;
    while let Some((name, later)) = front(rest) {
        list.push(AttrId(tables.attributes.place(name.text.as_str())))?;
        rest = later;
    }
    Ok(list)
}
