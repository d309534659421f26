// What a list that is set or forgotten moves.
use crate::counts::Counts;
use opa_cells::{Cells, InstanceId};
use opa_io::{List, Txt};

/// What goes and what comes by a list, each with its container, how many instances are live then, and the lists of the relations
/// that are declared with `every` where they change.
#[derive(Drop)]
pub struct Moves {
    pub(crate) went: Vec<(InstanceId, InstanceId)>,
    pub(crate) came: Vec<(InstanceId, InstanceId)>,
    pub(crate) counts: Counts,
    pub(crate) every: Option<Cells<List<Txt>>>,
}
