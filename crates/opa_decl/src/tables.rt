// What is declared, by its names.
use crate::places::Places;

/// The names of verbs, of entities but for the global one, of attributes and of relations.
#[derive(Drop)]
pub struct Tables {
    pub verbs: Places,
    pub entities: Places,
    pub attributes: Places,
    pub relations: Places,
}
