// Lines of quantifiers in the operand of another, kept while its members are gone through. What such a quantifier is worth
// depends on the enclosing instances only by the places of the entities that it mentions: in nested quantifiers over one
// list it is the same for each member, and determining it anew would take a power of steps.
ghost use Rattle.std.specs.Prelude.{◌≡◌, ◌<◌, [], length, IfOk, IsTrue, MatchOption, OnOk, ⊤, List as Seq};
ghost use Rattle.opa_code.specs.Keeping.{AreNoted, AreRight, AreSpots, IsKept, IsNew, IsRight, IsSpot, StayRight};
ghost use Rattle.opa_code.specs.declared.node.Node.{Node as OfCode};
ghost use Rattle.opa_mean.specs.Looks.{Look as Looked};

use crate::node::Node;
use crate::over_lines::same_line;
use crate::owners::add_over;
use opa_case::InstanceId;
use opa_io::{List, NoMemory};
use opa_line::Line;
use opa_mean::{Look, place_in};
use opa_value::Value;
use std::alloc::Global;

/// An entity, and its place among enclosing instances.
#[derive(Debug, Drop)]
pub(crate) struct Spot {
    owner: u32,
    inst: InstanceId,
}

/// The line of the quantifier behind which so many nodes stand, where entities have these places.
#[derive(Debug, Drop)]
pub(crate) struct KeptLine {
    position: usize,
    spots: List<Spot>,
    line: Line<Value>,
}

/// The lines that are kept, and the entity of the members that are gone through. Where there are none, nothing is kept.
#[derive(Debug, Drop)]
pub(crate) struct Kept {
    members: Option<u32>,
    pub lines: Vec<KeptLine>,
}

impl Kept {
    pub(crate) fn of(alloc: Global, members: Option<u32>) -> Kept
        ensures { result.lines.items ≡ [] }
    {
        Kept {
            members,
            lines: Vec::new(alloc),
        }
    }
}

/// The line that is kept of the quantifier at a position, if it is worth the same at these enclosing instances.
pub(crate) fn kept_line<'k, K: Look>(
    look: &K,
    lines: &'k [KeptLine],
    position: usize,
    enclosing: &[InstanceId],
) -> Option<&'k Line<Value>>
    ensures { MatchOption result ⊤ (λ line. IsKept (K.looks look.now) enclosing.now lines.now position line.now) }
{
    for kept in lines {
        if kept.position == position && are_spots(look, kept.spots.as_slice(), enclosing) {
            return Some(&kept.line);
        }
    }
    None
}

/// Keeps the line of a quantifier that was determined at enclosing instances.
pub(crate) fn keep<K: Look>(
    alloc: Global,
    look: &K,
    kept: &mut Kept,
    source: u32,
    target: u32,
    operand: &[Node],
    position: usize,
    enclosing: &[InstanceId],
    line: &Line<Value>,
) -> Result<(), NoMemory>
    ensures { OnOk result (StayRight (K.looks look.now) enclosing.now source target operand.now position line.now kept.old.lines.items kept.new.lines.items) }
{
    match kept.members {
        None => Ok(()),
        Some(members) => {
            let made = new_line(
                alloc, look, members, source, target, operand, position, enclosing, line,
            )?;
            match made {
                None => Ok(()),
                Some(new) => put(&mut kept.lines, new),
            }
        }
    }
}

/// A line to keep, unless it is another for each member.
fn new_line<K: Look>(
    alloc: Global,
    look: &K,
    members: u32,
    source: u32,
    target: u32,
    operand: &[Node],
    position: usize,
    enclosing: &[InstanceId],
    line: &Line<Value>,
) -> Result<Option<KeptLine>, NoMemory>
    ensures { IfOk result (λ made. MatchOption made ⊤ (IsNew (K.looks look.now) enclosing.now source target operand.now position line.now)) }
{
    if source == members {
        return Ok(None);
    }
    let mut owners = List::new(alloc);
    add_over(alloc, &mut owners, source, target, operand)?;
    if owners.as_slice().contains(&members) {
        return Ok(None);
    }
    match spots_of(alloc, look, owners.as_slice(), enclosing)? {
        None => Ok(None),
        Some(spots) => {
            let copied = same_line(alloc, line)?;
            Ok(Some(KeptLine {
                position,
                spots,
                line: copied,
            }))
        }
    }
}

/// The places of entities among enclosing instances, if each has one.
fn spots_of<K: Look>(
    alloc: Global,
    look: &K,
    owners: &[u32],
    enclosing: &[InstanceId],
) -> Result<Option<List<Spot>>, NoMemory>
    ensures { IfOk result (λ found. MatchOption found ⊤ (AreNoted (K.looks look.now) enclosing.now owners.now)) }
{
    let mut spots = List::new(alloc);
    for owner in owners {
        match place_in(look, enclosing, *owner) {
            None => return Ok(None),
            Some(place) => {
                let inst = place.copy(alloc)?;
                spots.push(Spot {
                    owner: *owner,
                    inst,
                })?;
            }
        }
    }
    Ok(Some(spots))
}

/// Whether each entity has the place that was noted.
fn are_spots<K: Look>(look: &K, spots: &[Spot], enclosing: &[InstanceId]) -> bool
    ensures { IsTrue result → AreSpots (K.looks look.now) enclosing.now spots.now }
{
    for spot in spots {
        if !is_spot(look, spot, enclosing) {
            return false;
        }
    }
    true
}

fn is_spot<K: Look>(look: &K, spot: &Spot, enclosing: &[InstanceId]) -> bool
    ensures { IsTrue result → IsSpot (K.looks look.now) enclosing.now spot.now }
{
    match place_in(look, enclosing, spot.owner) {
        None => false,
        Some(inst) => inst.equals(&spot.inst),
    }
}

/// Puts a line in the place of the one at its position.
fn put(lines: &mut Vec<KeptLine>, made: KeptLine) -> Result<(), NoMemory>
    ensures { OnOk result ((l : Looked) (nodes : Seq OfCode) → AreRight l nodes lines.old.items → IsRight l nodes made → AreRight l nodes lines.new.items) }
{
    match index_of(lines, made.position) {
        Some(index) => {
            lines[index] = made;
            Ok(())
        }
        None => {
            lines.push(made)?;
            Ok(())
        }
    }
}

fn index_of(lines: &[KeptLine], position: usize) -> Option<usize>
    ensures { MatchOption result ⊤ (λ index. index < length lines.now) }
{
    lines.iter().position(|kept| kept.position == position)
}
