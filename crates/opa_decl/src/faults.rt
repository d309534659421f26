// Faults at their places.
ghost use Rattle.std.specs.Prelude.{◌≡◌};
ghost use Rattle.opa_tree.specs.FirstFaults.{first_fault};
ghost use Rattle.opa_decl.specs.Faults.{fault_at, when};

use crate::items::Place;
use opa_io::List;
use opa_tree::{RbFault, RbKind};
use std::alloc::Global;

/// A fault on a line.
pub fn fault_at(alloc: Global, kind: RbKind, place: Place) -> RbFault
    ensures { result ≡ fault_at kind place }
{
    RbFault {
        file: place.file,
        line: place.line,
        kind,
        cycle: List::new(alloc),
    }
}

/// The fault, where the test holds.
pub fn when(alloc: Global, test: bool, kind: RbKind, place: Place) -> Option<RbFault>
    ensures { result ≡ first_fault (when test kind place) }
{
    if test {
        Some(fault_at(alloc, kind, place))
    } else {
        None
    }
}
