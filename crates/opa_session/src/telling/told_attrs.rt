// The attributes of slots, in the order of slots.

use opa_io::List;
use opa_model::AttrId;

/// Attributes, each once, by rank and then in declared order. `single` says that no two of the slots that they were taken from
/// have one attribute.
#[derive(Drop)]
pub(crate) struct ToldAttrs {
    pub(crate) attrs: List<AttrId>,
    pub(crate) last: Option<AttrId>,
    pub(crate) single: bool,
}
