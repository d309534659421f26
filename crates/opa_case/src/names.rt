// Names of a list that another list doesn't have.
ghost use Rattle.std.specs.Prelude.{◌≡◌, ◌≤◌, ◌∷◌, ◌++◌, [], cond, true, ℕ, List as Seq, Some, IfOk, OnOk, length, take, slice_get};
ghost use Rattle.std.specs.List.{list_any};
ghost use Rattle.opa_cells.specs.Instances.{is_text};
ghost use Rattle.opa_case.specs.Homes.{has_name};
ghost use Rattle.opa_case.specs.Turns.{names_without};

use crate::list_faults::{add_name, has_name};
use opa_io::{List, NoMemory, Same, Txt};
use std::alloc::Global;
use std::collections::HashMap;

/// From so many names on, a set of them costs less than going through them again and again.
pub(crate) const MANY: usize = 8;

/// The names that aren't among the others. Those with which both lists begin are passed over, so that
/// a list that grows at its end costs little. For those behind it goes through the others once, into a set, unless few are left or few are the others.
pub(crate) fn names_without(
    alloc: Global,
    names: &[Txt],
    others: &[Txt],
) -> Result<List<Txt>, NoMemory>
    ensures { IfOk result (λ left. left ≡ names_without names.now others.now) }
{
    let rest = behind_shared(names, others);
    if rest.len() < MANY || others.len() < MANY {
        let left = few_without(alloc, rest, others)?;
        return Ok(left);
    }
    let left = many_without(alloc, rest, others)?;
    Ok(left)
}

/// The names behind those with which both lists begin.
fn behind_shared<'a>(names: &'a [Txt], others: &[Txt]) -> &'a [Txt]
    ensures { names_without result.now others.now ≡ names_without names.now others.now }
{
    let (_, rest) = names.split_at(shared(names, others));
    rest
}

/// With how many names both lists begin.
pub(crate) fn shared(names: &[Txt], others: &[Txt]) -> usize
    ensures within { result ≤ length names.now }
    ensures same { take result names.now ≡ take result others.now }
{
    let mut at = 0;
    while at < names.len() {
        if !stands_at(others, at, &names[at]) {
            return at;
        }
        at += 1;
    }
    at
}

fn stands_at(others: &[Txt], at: usize, name: &Txt) -> bool
    ensures { result ≡ true → slice_get others.now at ≡ Some name.now }
{
    match others.get(at) {
        Some(other) => other.same(name),
        None => false,
    }
}

fn many_without(alloc: Global, names: &[Txt], others: &[Txt]) -> Result<List<Txt>, NoMemory>
    ensures { IfOk result (λ left. left ≡ names_without names.now others.now) }
{
    let found = set_of(alloc, others)?;
    let mut left = List::new(alloc);
    for name in names {
        add_unless(alloc, &mut left, has_name(&found, name), name)?;
    }
    Ok(left)
}

fn few_without(alloc: Global, names: &[Txt], others: &[Txt]) -> Result<List<Txt>, NoMemory>
    ensures { IfOk result (λ left. left ≡ names_without names.now others.now) }
{
    let mut left = List::new(alloc);
    for name in names {
        add_unless(alloc, &mut left, is_among(name, others), name)?;
    }
    Ok(left)
}

fn set_of<'a>(alloc: Global, names: &'a [Txt]) -> Result<HashMap<&'a str, ()>, NoMemory>
    ensures { IfOk result (λ found. (q : Seq ℕ) → has_name found q ≡ list_any (is_text q) names.now) }
{
    let mut found = HashMap::with_capacity(alloc, names.len())?;
    for name in names {
        add_name(&mut found, name)?;
    }
    Ok(found)
}

/// Adds a copy of a name at the end, unless it was found.
fn add_unless(alloc: Global, left: &mut List<Txt>, found: bool, name: &Txt) -> Result<(), NoMemory>
    ensures { OnOk result (left.new ≡ cond found left.old (left.old ++ name.now ∷ [])) }
{
    if found {
        return Ok(());
    }
    left.push(name.copy(alloc)?)
}

/// Whether the name is one of these.
pub(crate) fn is_among(name: &Txt, names: &[Txt]) -> bool
    ensures { result ≡ list_any (is_text name.now) names.now }
{
    names.iter().any(|other| is_name(name, other))
}

fn is_name(name: &Txt, other: &Txt) -> bool
    ensures { result ≡ is_text name.now other.now }
{
    name.as_str() == other.as_str()
}
