// The faults of what a block says.
ghost use Rattle.std.specs.Prelude.{◌≡◌, ◌+◌, ◌<◌, min};
ghost use Rattle.opa_tree.specs.FirstFaults.{first_fault};
ghost use Rattle.opa_parse.specs.RuleFaults.{fault_at as fault_at_line, when as when_holds, marked as marked_at, passes as passes_most, size_faults, statement_faults, block_faults};

use crate::{Mark, RuleBlock, Statement};
use opa_io::limits::{MOST_DEPTH, MOST_NODES, MOST_RULES};
use opa_io::{List, front};
use opa_sentence::Reading;
use opa_tree::{RbFault, RbKind, first_of};
use std::alloc::Global;

/// Where a block begins.
#[derive(Clone, Copy)]
pub struct Place {
    pub file: u32,
    pub line: u32,
}

/// A fault at a line.
pub fn fault_at(alloc: Global, place: Place, kind: RbKind) -> RbFault
    ensures { result ≡ fault_at_line place.file place.line kind }
{
    RbFault {
        file: place.file,
        line: place.line,
        kind,
        cycle: List::new(alloc),
    }
}

/// The fault, where the test holds.
pub fn when(alloc: Global, test: bool, place: Place, kind: RbKind) -> Option<RbFault>
    ensures { result ≡ first_fault (when_holds test (fault_at_line place.file place.line kind)) }
{
    if test {
        Some(fault_at(alloc, place, kind))
    } else {
        None
    }
}

fn one_marked(alloc: Global, file: u32, mark: Mark) -> RbFault
    ensures { result ≡ fault_at_line file mark.line mark.kind }
{
    let place = Place {
        file,
        line: mark.line,
    };
    fault_at(alloc, place, mark.kind)
}

/// The first of the faults that lines have by themselves.
#[tactic(auto, using(opa_tree::proofs::FirstFaultLaws::first_faults))]
pub fn marked(alloc: Global, file: u32, marks: &[Mark]) -> Option<RbFault>
    ensures { result ≡ first_fault (marked_at file marks.now) }
{
    let mut first = None;
    let mut rest = marks;
    while let Some((mark, later)) = front(rest) {
        first = first_of(first, Some(one_marked(alloc, file, *mark)));
        rest = later;
    }
    first
}

/// Whether so many more pass the most.
fn passes(most: u32, before: u32, more: u32) -> bool
    ensures { result ≡ passes_most most before more }
{
    before <= most && u64::from(before) + u64::from(more) > u64::from(most)
}

/// A depth or nodes over their number, where so many nodes stand before.
#[tactic(auto, using(opa_tree::proofs::FirstFaultLaws::first_faults))]
pub fn size_fault(alloc: Global, before: u32, place: Place, reading: &Reading) -> Option<RbFault>
    ensures { result ≡ first_fault (size_faults before place.file place.line reading.now) }
{
    let is_deep = reading.measure.depth > MOST_DEPTH;
    let is_wide = passes(MOST_NODES, before, reading.measure.nodes);
    first_of(
        when(alloc, is_deep, place, RbKind::Limit),
        when(alloc, is_wide, place, RbKind::Limit),
    )
}

/// The first fault of what a rule says, where so many rules and nodes stand before.
fn statement_fault(
    alloc: Global,
    rules: u32,
    nodes: u32,
    place: Place,
    statement: &Statement,
) -> Option<RbFault>
    ensures { result ≡ first_fault (statement_faults rules nodes place.file place.line statement.now) }
{
    let over = when(alloc, rules == MOST_RULES, place, RbKind::Limit);
    let size = size_fault(alloc, nodes, place, &statement.said.reading);
    let unnamed = when(alloc, statement.attr.is_none(), place, RbKind::Name);
    let marks = marked(alloc, place.file, statement.said.marks.as_slice());
    first_of(first_of(over, size), first_of(unnamed, marks))
}

/// The first fault of a rule, where so many rules and nodes stand before.
pub fn rule_fault(alloc: Global, rules: u32, nodes: u32, block: &RuleBlock) -> Option<RbFault>
    ensures { result ≡ first_fault (block_faults rules nodes block.now) }
{
    let place = Place {
        file: block.file,
        line: block.line,
    };
    match &block.statement {
        None => Some(fault_at(alloc, place, RbKind::Syntax)),
        Some(statement) => statement_fault(alloc, rules, nodes, place, statement),
    }
}

/// So many more, or one more than the most.
pub fn more_than(before: u32, more: u32, most: u32) -> u32
    requires { most < 1_000_000 }
    ensures { result ≡ min (before + more) (most + 1) }
{
    before.saturating_add(more).min(most + 1)
}
