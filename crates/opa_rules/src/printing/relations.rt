// Lines that declare relations.

use crate::printing::names::{entity_name, relation_phrase};
use opa_io::NoMemory;
use opa_model::{Entity, Model, Relation};

/// What stands behind a relation's phrase.
fn target_joint(relation: &Relation) -> &'static str {
    if relation.every {
        ": "
    } else if relation.one {
        ": one "
    } else {
        ": many "
    }
}

/// Appends the line that declares a relation that contains nothing.
pub(crate) fn push_relation(
    out: &mut String,
    model: &Model,
    relation: &Relation,
) -> Result<(), NoMemory> {
    let word = if relation.every {
        "  every "
    } else {
        "  reference "
    };
    out.push_str(word)?;
    out.push_str(relation.phrase.as_str())?;
    out.push_str(target_joint(relation))?;
    out.push_str(entity_name(model, relation.target))?;
    out.push_str("\n")?;
    Ok(())
}

/// Appends the line that says in what the instances of an entity are.
pub(crate) fn push_containment(
    out: &mut String,
    model: &Model,
    entity: &Entity,
) -> Result<(), NoMemory> {
    out.push_str("  in ")?;
    out.push_str(entity_name(model, entity.parent))?;
    out.push_str(": ")?;
    out.push_str(relation_phrase(model, entity.contained))?;
    out.push_str("\n")?;
    Ok(())
}
