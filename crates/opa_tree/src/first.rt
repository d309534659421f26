// The first of many faults.
ghost use Rattle.std.specs.Prelude.{◌≡◌};
ghost use Rattle.opa_tree.specs.FirstFaults.{turn, is_before, first_of, FirstFaultIsFirst, FirstOfParts};

use crate::{RbFault, RbKind};

fn turn(kind: RbKind) -> u8
    ensures { result ≡ turn kind }
{
    match kind {
        RbKind::Missing => 0,
        RbKind::Bytes => 1,
        RbKind::Syntax => 2,
        RbKind::Limit => 3,
        RbKind::Name => 4,
        RbKind::Scope => 5,
        RbKind::Kind => 6,
        RbKind::Twice => 7,
        RbKind::Cycle => 8,
    }
}

fn is_before(a: &RbFault, b: &RbFault) -> bool
    ensures { result ≡ is_before a.now b.now }
{
    if turn(a.kind) == turn(b.kind) {
        if a.file == b.file {
            a.line < b.line
        } else {
            a.file < b.file
        }
    } else {
        turn(a.kind) < turn(b.kind)
    }
}

/// The first of two faults: by kind in the order in which kinds are told, then by file and line; the first of equal ones.
pub fn first_of(first: Option<RbFault>, second: Option<RbFault>) -> Option<RbFault>
    ensures { result ≡ first_of first second }
{
    match (first, second) {
        (None, other) => other,
        (Some(a), None) => Some(a),
        (Some(a), Some(b)) => { if is_before(&b, &a) { Some(b) } else { Some(a) } }
    }
}

/// The first of many faults is one of them, and none is before it.
pub fn first_fault_is_first()
    ensures { FirstFaultIsFirst }
{}

/// The first of two lists of faults is the first of their first ones.
pub fn first_of_parts()
    ensures { FirstOfParts }
{}
