// Which slots read each line and each list.

use opa_cells::Cells;
use opa_mean::Slot;
use std::collections::BTreeSet;

/// For each line and each list the slots that read it.
#[derive(Drop)]
pub struct Index {
    pub(crate) lines: Cells<BTreeSet<Slot>>,
    pub(crate) lists: Cells<BTreeSet<Slot>>,
}
