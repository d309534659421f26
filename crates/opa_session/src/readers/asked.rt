// Questions that are looked up.

use opa_cells::Cells;

/// A set of questions.
#[derive(Drop)]
pub(crate) struct Asked {
    pub(crate) lines: Cells<()>,
    pub(crate) lists: Cells<()>,
}
