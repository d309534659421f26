// Which slots a change reaches.

mod laws;
mod readers;
mod slot;

pub use laws::{
    answers_differ, dirty_by_new_reads, dirty_by_old_reads, fresh_or_reads, held_can_tell,
    laid_are_current, laid_stay_current, lists_begin, new_can_tell, new_is_dirty, nothing_is_fresh,
    readers_stay, readers_then, reads_are_lower, reads_stay, relisted_is_by_lists, settled_stays,
};
pub use readers::Readers;
pub use slot::Slot;
