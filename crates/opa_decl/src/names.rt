// The names of declared things, in written order.
ghost use Rattle.std.specs.Prelude.{◌≡◌, ◌++◌, ◌∷◌, [], flat_map, IfOk, OnOk};
ghost use Rattle.opa_decl.specs.Names.{verb_name, entity_name, attribute_name, relation_name, goal_name, screen_name, file_name};

use crate::items::{Item, Name, Place};
use opa_io::{List, NoMemory, Txt, front};
use std::alloc::Global;

/// Adds a name.
fn add(alloc: Global, names: &mut List<Name>, place: Place, text: &Txt) -> Result<(), NoMemory>
    ensures { OnOk result (names.new ≡ names.old ++ record { place = place; text = text.now } ∷ []) }
{
    names.push(Name {
        place,
        text: text.copy(alloc)?,
    })
}

/// Adds all of these names.
fn add_all(alloc: Global, names: &mut List<Name>, more: &[Name]) -> Result<(), NoMemory>
    ensures { OnOk result (names.new ≡ names.old ++ more.now) }
{
    let mut rest = more;
    while let Some((name, later)) = front(rest) {
        add(alloc, names, name.place, &name.text)?;
        rest = later;
    }
    Ok(())
}

fn add_verb_name(alloc: Global, names: &mut List<Name>, item: &Item) -> Result<(), NoMemory>
    ensures { OnOk result (names.new ≡ names.old ++ verb_name item.now) }
{
    match item {
        Item::Verb(verb) => add(alloc, names, verb.place, &verb.verb.positive),
        Item::Entity(_) => Ok(()),
        Item::Attribute(_) => Ok(()),
        Item::Relation(_) => Ok(()),
        Item::Goal(_) => Ok(()),
        Item::Screen(_) => Ok(()),
        Item::File(_) => Ok(()),
    }
}

/// Verbs by their POS.
pub fn verb_names(alloc: Global, items: &[Item]) -> Result<List<Name>, NoMemory>
    ensures { IfOk result (λ names. names ≡ flat_map verb_name items.now) }
{
    let mut names = List::new(alloc);
    let mut rest = items;
    while let Some((item, later)) = front(rest) {
        add_verb_name(alloc, &mut names, item)?;
        rest = later;
    }
    Ok(names)
}

fn add_entity_name(alloc: Global, names: &mut List<Name>, item: &Item) -> Result<(), NoMemory>
    ensures { OnOk result (names.new ≡ names.old ++ entity_name item.now) }
{
    match item {
        Item::Entity(entity) => add(alloc, names, entity.phrase.place, &entity.phrase.text),
        Item::Verb(_) => Ok(()),
        Item::Attribute(_) => Ok(()),
        Item::Relation(_) => Ok(()),
        Item::Goal(_) => Ok(()),
        Item::Screen(_) => Ok(()),
        Item::File(_) => Ok(()),
    }
}

/// The phrases of entities.
pub fn entity_names(alloc: Global, items: &[Item]) -> Result<List<Name>, NoMemory>
    ensures { IfOk result (λ names. names ≡ flat_map entity_name items.now) }
{
    let mut names = List::new(alloc);
    let mut rest = items;
    while let Some((item, later)) = front(rest) {
        add_entity_name(alloc, &mut names, item)?;
        rest = later;
    }
    Ok(names)
}

fn add_attribute_name(alloc: Global, names: &mut List<Name>, item: &Item) -> Result<(), NoMemory>
    ensures { OnOk result (names.new ≡ names.old ++ attribute_name item.now) }
{
    match item {
        Item::Attribute(line) => add(alloc, names, line.phrase.place, &line.phrase.text),
        Item::Verb(_) => Ok(()),
        Item::Entity(_) => Ok(()),
        Item::Relation(_) => Ok(()),
        Item::Goal(_) => Ok(()),
        Item::Screen(_) => Ok(()),
        Item::File(_) => Ok(()),
    }
}

/// The phrases of attributes.
pub fn attribute_names(alloc: Global, items: &[Item]) -> Result<List<Name>, NoMemory>
    ensures { IfOk result (λ names. names ≡ flat_map attribute_name items.now) }
{
    let mut names = List::new(alloc);
    let mut rest = items;
    while let Some((item, later)) = front(rest) {
        add_attribute_name(alloc, &mut names, item)?;
        rest = later;
    }
    Ok(names)
}

fn add_relation_name(alloc: Global, names: &mut List<Name>, item: &Item) -> Result<(), NoMemory>
    ensures { OnOk result (names.new ≡ names.old ++ relation_name item.now) }
{
    match item {
        Item::Entity(entity) => add(alloc, names, entity.inside.place, &entity.inside.text),
        Item::Relation(line) => add(alloc, names, line.phrase.place, &line.phrase.text),
        Item::Verb(_) => Ok(()),
        Item::Attribute(_) => Ok(()),
        Item::Goal(_) => Ok(()),
        Item::Screen(_) => Ok(()),
        Item::File(_) => Ok(()),
    }
}

/// The phrases of relations.
pub fn relation_names(alloc: Global, items: &[Item]) -> Result<List<Name>, NoMemory>
    ensures { IfOk result (λ names. names ≡ flat_map relation_name items.now) }
{
    let mut names = List::new(alloc);
    let mut rest = items;
    while let Some((item, later)) = front(rest) {
        add_relation_name(alloc, &mut names, item)?;
        rest = later;
    }
    Ok(names)
}

fn add_goal_name(alloc: Global, names: &mut List<Name>, item: &Item) -> Result<(), NoMemory>
    ensures { OnOk result (names.new ≡ names.old ++ goal_name item.now) }
{
    match item {
        Item::Goal(goal) => add(alloc, names, goal.place, &goal.text),
        Item::Verb(_) => Ok(()),
        Item::Entity(_) => Ok(()),
        Item::Attribute(_) => Ok(()),
        Item::Relation(_) => Ok(()),
        Item::Screen(_) => Ok(()),
        Item::File(_) => Ok(()),
    }
}

/// Goals.
pub fn goal_names(alloc: Global, items: &[Item]) -> Result<List<Name>, NoMemory>
    ensures { IfOk result (λ names. names ≡ flat_map goal_name items.now) }
{
    let mut names = List::new(alloc);
    let mut rest = items;
    while let Some((item, later)) = front(rest) {
        add_goal_name(alloc, &mut names, item)?;
        rest = later;
    }
    Ok(names)
}

fn add_screen_name(alloc: Global, names: &mut List<Name>, item: &Item) -> Result<(), NoMemory>
    ensures { OnOk result (names.new ≡ names.old ++ screen_name item.now) }
{
    match item {
        Item::Screen(screen) => add_all(alloc, names, screen.items.as_slice()),
        Item::Verb(_) => Ok(()),
        Item::Entity(_) => Ok(()),
        Item::Attribute(_) => Ok(()),
        Item::Relation(_) => Ok(()),
        Item::Goal(_) => Ok(()),
        Item::File(_) => Ok(()),
    }
}

/// What stands on screens.
pub fn screen_names(alloc: Global, items: &[Item]) -> Result<List<Name>, NoMemory>
    ensures { IfOk result (λ names. names ≡ flat_map screen_name items.now) }
{
    let mut names = List::new(alloc);
    let mut rest = items;
    while let Some((item, later)) = front(rest) {
        add_screen_name(alloc, &mut names, item)?;
        rest = later;
    }
    Ok(names)
}

fn add_file_name(alloc: Global, names: &mut List<Name>, item: &Item) -> Result<(), NoMemory>
    ensures { OnOk result (names.new ≡ names.old ++ file_name item.now) }
{
    match item {
        Item::File(file) => add(alloc, names, file.place, &file.text),
        Item::Verb(_) => Ok(()),
        Item::Entity(_) => Ok(()),
        Item::Attribute(_) => Ok(()),
        Item::Relation(_) => Ok(()),
        Item::Goal(_) => Ok(()),
        Item::Screen(_) => Ok(()),
    }
}

/// The files of `include` and `table` lines.
pub fn file_names(alloc: Global, items: &[Item]) -> Result<List<Name>, NoMemory>
    ensures { IfOk result (λ names. names ≡ flat_map file_name items.now) }
{
    let mut names = List::new(alloc);
    let mut rest = items;
    while let Some((item, later)) = front(rest) {
        add_file_name(alloc, &mut names, item)?;
        rest = later;
    }
    Ok(names)
}
