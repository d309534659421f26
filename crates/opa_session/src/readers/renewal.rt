// What a change of a list makes of the readers.

use opa_case::Question;
use opa_io::List;
use opa_mean::Slot;

/// Of one slot: what it reads besides, and what it reads no more.
#[derive(Drop)]
pub(crate) struct Renewed {
    pub(crate) slot: Slot,
    pub(crate) more: List<Question>,
    pub(crate) lost: List<Question>,
}

/// What is to be added to the index of the held case and taken out of it, so that it is that of the coming one.
#[derive(Drop)]
pub struct Renewal {
    pub(crate) slots: List<Renewed>,
}
