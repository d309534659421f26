// The blocks of the global entity and of the others, so that attributes and relations keep their order.

use crate::printing::attributes::push_attribute;
use crate::printing::relations::{push_containment, push_relation};
use opa_io::NoMemory;
use opa_model::{AttrId, EntityId, Model, RelId};
use std::alloc::Global;

/// The attribute and the relation that are declared next.
#[derive(Clone, Copy)]
struct Next {
    attribute: u32,
    relation: u32,
}

/// Whether the next attribute is of an entity.
fn has_attribute(model: &Model, entity: EntityId, next: Next) -> bool {
    next.attribute < model.attribute_count()
        && model.attribute(AttrId(next.attribute)).entity == entity
}

/// Whether the next relation is declared by a line of an entity, other than the one that says in what it is.
fn has_relation(model: &Model, entity: EntityId, next: Next) -> bool {
    if next.relation < model.relation_count() {
        let relation = model.relation(RelId(next.relation));
        !relation.contains && relation.source == entity
    } else {
        false
    }
}

/// Appends the attributes of an entity, from one on, and answers the one behind them.
fn push_attributes(
    alloc: Global,
    out: &mut String,
    model: &Model,
    entity: EntityId,
    first: u32,
) -> Result<u32, NoMemory> {
    for n in first..model.attribute_count() {
        let attribute = model.attribute(AttrId(n));
        if attribute.entity != entity {
            return Ok(n);
        }
        push_attribute(alloc, out, model, attribute)?;
    }
    Ok(model.attribute_count())
}

/// Appends the relations of an entity that contain nothing, from one on, and answers the one behind them.
fn push_relations(
    out: &mut String,
    model: &Model,
    entity: EntityId,
    first: u32,
) -> Result<u32, NoMemory> {
    for n in first..model.relation_count() {
        let relation = model.relation(RelId(n));
        if relation.contains || relation.source != entity {
            return Ok(n);
        }
        push_relation(out, model, relation)?;
    }
    Ok(model.relation_count())
}

/// Appends the lines of an entity, and answers what is declared next.
fn push_lines(
    alloc: Global,
    out: &mut String,
    model: &Model,
    entity: EntityId,
    next: Next,
) -> Result<Next, NoMemory> {
    Ok(Next {
        attribute: push_attributes(alloc, out, model, entity, next.attribute)?,
        relation: push_relations(out, model, entity, next.relation)?,
    })
}

/// Appends a block of the global entity, if what is declared next is of it.
fn push_global(
    alloc: Global,
    out: &mut String,
    model: &Model,
    next: Next,
) -> Result<Next, NoMemory> {
    let global = EntityId(0);
    if has_attribute(model, global, next) || has_relation(model, global, next) {
        out.push_str("global\n")?;
        push_lines(alloc, out, model, global, next)
    } else {
        Ok(next)
    }
}

/// Appends the block of an entity, whose first line is the next relation.
fn push_entity(
    alloc: Global,
    out: &mut String,
    model: &Model,
    id: EntityId,
    next: Next,
) -> Result<Next, NoMemory> {
    if id.0 >= model.entity_count() {
        return Ok(next);
    }
    let entity = model.entity(id);
    out.push_str("entity ")?;
    out.push_str(entity.phrase.as_str())?;
    out.push_str("\n")?;
    push_containment(out, model, entity)?;
    let behind = Next {
        attribute: next.attribute,
        relation: next.relation.saturating_add(1),
    };
    push_lines(alloc, out, model, id, behind)
}

/// Appends all entities with their attributes and relations.
pub(crate) fn push_blocks(alloc: Global, out: &mut String, model: &Model) -> Result<(), NoMemory> {
    let mut next = Next {
        attribute: 0,
        relation: 0,
    };
    for n in 1..model.entity_count() {
        next = push_global(alloc, out, model, next)?;
        next = push_entity(alloc, out, model, EntityId(n), next)?;
    }
    push_global(alloc, out, model, next)?;
    Ok(())
}
