// Declared things by their phrases; one that isn't declared has none.

use opa_model::{AttrId, EntityId, Item, Model, RelId};

/// What a line calls an entity.
pub(crate) fn entity_name(model: &Model, id: EntityId) -> &str {
    if id.0 == 0 {
        "global"
    } else if id.0 < model.entity_count() {
        model.entity(id).phrase.as_str()
    } else {
        ""
    }
}

pub(crate) fn attribute_phrase(model: &Model, id: AttrId) -> &str {
    if id.0 < model.attribute_count() {
        model.attribute(id).phrase.as_str()
    } else {
        ""
    }
}

pub(crate) fn relation_phrase(model: &Model, id: RelId) -> &str {
    if id.0 < model.relation_count() {
        model.relation(id).phrase.as_str()
    } else {
        ""
    }
}

pub(crate) fn item_phrase<'m>(model: &'m Model, item: &Item) -> &'m str {
    match item {
        Item::Attr(attr) => attribute_phrase(model, *attr),
        Item::Members(rel) => relation_phrase(model, *rel),
    }
}

/// The form of a verb that says that something holds.
pub(crate) fn positive(model: &Model, verb: u32) -> &str {
    if verb < model.verb_count() {
        model.verb(verb).positive.as_str()
    } else {
        ""
    }
}
