// The entities whose places nodes make use of.
ghost use Rattle.std.specs.Prelude.{◌≤◌, length, IfOk, OnOk};
ghost use Rattle.opa_code.specs.Mentions.{Adds, AddsBehind, AddsOthers, AddsOver, AddsOwn, HasOwners};

use crate::carry::{attribute_in, behind};
use crate::node::Node;
use crate::run::{over_of, up_to};
use opa_io::{List, NoMemory, front};
use std::alloc::Global;

/// The entities that nodes mention.
#[cycle(naming)]
fn owners_in(alloc: Global, nodes: &[Node]) -> Result<List<u32>, NoMemory>
    ensures { IfOk result (HasOwners nodes.now) }
{
    let mut owners = List::new(alloc);
    let mut rest = nodes;
    while let Some((node, after)) = front(rest) {
        rest = add_owners(alloc, &mut owners, node, after)?;
    }
    Ok(owners)
}

/// Adds those of a node, or of a quantifier with the nodes of its operand: the nodes that are left.
#[cycle(naming)]
fn add_owners<'n>(
    alloc: Global,
    owners: &mut List<u32>,
    node: &Node,
    after: &'n [Node],
) -> Result<&'n [Node], NoMemory>
    ensures adds { IfOk result (λ rest. AddsBehind node.now after.now owners.old rest.now owners.new) }
    ensures fewer { IfOk result (λ rest. length rest.now ≤ length after.now) }
{
    match over_of(node) {
        None => {
            add_own(owners, node)?;
            Ok(after)
        }
        Some((_, (_, (source, (target, count))))) => {
            let operand = up_to(count, after);
            add_over(alloc, owners, source, target, operand)?;
            Ok(behind(count, after))
        }
    }
}

/// Adds those of a quantifier: its source, and what its operand mentions besides the listed instance.
#[cycle(naming)]
pub(crate) fn add_over(
    alloc: Global,
    owners: &mut List<u32>,
    source: u32,
    target: u32,
    operand: &[Node],
) -> Result<(), NoMemory>
    ensures { OnOk result (AddsOver source target operand.now owners.old owners.new) }
{
    add_new(owners, source)?;
    let inner = owners_in(alloc, operand)?;
    add_others(owners, target, inner.as_slice())
}

/// Adds entities other than one.
fn add_others(owners: &mut List<u32>, target: u32, inner: &[u32]) -> Result<(), NoMemory>
    ensures { OnOk result (AddsOthers target inner.now owners.old owners.new) }
{
    for owner in inner {
        if *owner != target {
            add_new(owners, *owner)?;
        }
    }
    Ok(())
}

/// Adds the owner of the attribute that a node reads.
fn add_own(owners: &mut List<u32>, node: &Node) -> Result<(), NoMemory>
    ensures { OnOk result (AddsOwn node.now owners.old owners.new) }
{
    match attribute_in(node) {
        Some((_, owner)) => add_new(owners, owner),
        None => Ok(()),
    }
}

/// Adds an entity that isn't there yet.
fn add_new(owners: &mut List<u32>, owner: u32) -> Result<(), NoMemory>
    ensures { OnOk result (Adds owner owners.old owners.new) }
{
    if owners.as_slice().contains(&owner) {
        return Ok(());
    }
    owners.push(owner)
}
