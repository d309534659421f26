// What is known of items before they have numbers.
use crate::items::Name;
use crate::tables::Tables;
use opa_io::List;
use opa_model::{Screen, Verb};
use opa_tree::RbFault;

#[derive(Drop)]
pub struct Draft {
    pub tables: Tables,
    pub verbs: List<Verb>,
    pub screens: List<Screen>,
    pub goals: List<Name>,
    pub twice: Option<RbFault>,
}
