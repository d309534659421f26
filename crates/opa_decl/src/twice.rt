// What stands a second time.
ghost use Rattle.std.specs.Prelude.{◌≡◌, [], IfOk};
ghost use Rattle.opa_tree.specs.FirstFaults.{first_fault};
ghost use Rattle.opa_decl.specs.Faults.{repeated};

use crate::faults::when;
use crate::items::Name;
use crate::marks::Seen;
use opa_io::{NoMemory, front};
use opa_tree::{RbFault, RbKind, first_of};
use std::alloc::Global;

/// The first name whose text is that of an earlier one.
pub fn first_repeated(alloc: Global, names: &[Name]) -> Result<Option<RbFault>, NoMemory>
    ensures { IfOk result (λ fault. fault ≡ first_fault (repeated [] names.now)) }
{
    let mut seen = Seen::new(alloc);
    let mut first = None;
    let mut rest = names;
    while let Some((name, later)) = front(rest) {
        let is_new = seen.add(name.text.as_str().as_bytes().to_vec(alloc)?)?;
        first = first_of(first, when(alloc, !is_new, RbKind::Twice, name.place));
        rest = later;
    }
    Ok(first)
}
