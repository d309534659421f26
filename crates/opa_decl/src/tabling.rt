// Tables of names are made.
ghost use Rattle.std.specs.Prelude.{◌≡◌, ◌+◌, ◌<◌, ◌^◌, length, IfOk};
ghost use Rattle.opa_decl.specs.Names.{tables_of};
ghost use Rattle.opa_decl.specs.Seen.{seen};

use crate::items::Item;
use crate::names::{attribute_names, entity_names, relation_names, verb_names};
use crate::places::Places;
use crate::tables::Tables;
use opa_io::NoMemory;
use std::alloc::Global;

/// What is declared, by its names.
#[tactic(auto, unfolding(crate::specs::Names::tables_of))]
pub fn tables_of(alloc: Global, items: &[Item]) -> Result<Tables, NoMemory>
    requires { length items.now + 1 < 2 ^ 32 }
    ensures { IfOk result (λ t. seen t ≡ tables_of items.now) }
{
    let verbs = verb_names(alloc, items)?;
    let entities = entity_names(alloc, items)?;
    let attributes = attribute_names(alloc, items)?;
    let relations = relation_names(alloc, items)?;
    Ok(Tables {
        verbs: Places::new(alloc, verbs.as_slice())?,
        entities: Places::new(alloc, entities.as_slice())?,
        attributes: Places::new(alloc, attributes.as_slice())?,
        relations: Places::new(alloc, relations.as_slice())?,
    })
}
