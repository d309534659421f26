// The lists of declared things.
use crate::{AttrId, Attribute, Entity, Relation, Screen, Verb};
use opa_io::List;

/// All that is declared, in declared order: what contracts see of a `Model`.
#[derive(Debug, Drop)]
pub struct Lists {
    pub entities: List<Entity>,
    pub attributes: List<Attribute>,
    pub relations: List<Relation>,
    pub verbs: List<Verb>,
    pub screens: List<Screen>,
    pub goals: List<AttrId>,
}
