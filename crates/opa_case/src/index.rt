// The instances in whose lists a name stands, found by relation and name.
ghost use Rattle.std.specs.Prelude.{◌≡◌, ℕ, List, Bool, true, false, cond, ◌&&◌, OnOk, OnErr, IsNone, IsTrue};
ghost use Rattle.std.specs.List.{list_any};
ghost use Rattle.std.specs.BTreeMap as tree;
ghost use Rattle.std.specs.Option.{option_map_or};
ghost use Rattle.std.specs.Ordering.{nat_cmp, is_eq};
ghost use Rattle.std.specs.Cmp.Lexicographic.{slice_cmp};
ghost use Rattle.opa_cells.specs.Instances.{is_text};
ghost use Rattle.opa_cells.specs.declared.instance.InstanceId.{InstanceId as InstanceView};
ghost use Rattle.opa_case.specs.Listed.{has_source, is_in_row, is_indexed, SetsSource, SetsInRow, SetsName, SetsNames, SameRow, SameIndex};

use opa_cells::InstanceId;
use opa_io::{NoMemory, Txt};
use std::alloc::Global;
use std::collections::BTreeMap;

/// The instances in whose lists a name stands.
pub(crate) type Sources = BTreeMap<InstanceId, ()>;

/// The sources of each name, for each relation.
pub(crate) type Index = BTreeMap<u32, BTreeMap<Txt, Sources>>;

/// Adds an instance to the sources of a name.
pub(crate) fn add_name(
    alloc: Global,
    index: &mut Index,
    number: u32,
    name: &Txt,
    inst: &InstanceId,
) -> Result<(), NoMemory>
    ensures ok { OnOk result (SetsName true index.old.entries index.new.entries number name.now inst.now) }
    ensures err { OnErr result (SameIndex index.old.entries index.new.entries) }
{
    match index.get_mut(&number) {
        Some(row) => add_in_row(alloc, row, name, inst),
        None => add_row(alloc, index, number, name, inst),
    }
}

/// Adds a row with one name, for a relation that has none.
fn add_row(
    alloc: Global,
    index: &mut Index,
    number: u32,
    name: &Txt,
    inst: &InstanceId,
) -> Result<(), NoMemory>
    requires { IsNone (tree.get nat_cmp index.old number) }
    ensures ok { OnOk result (SetsName true index.old.entries index.new.entries number name.now inst.now) }
    ensures err { OnErr result (SameIndex index.old.entries index.new.entries) }
{
    let mut row = BTreeMap::new(alloc);
    add_in_row(alloc, &mut row, name, inst)?;
    match index.insert(number, row) {
        Ok(_) => Ok(()),
        Err(_) => Err(NoMemory),
    }
}

fn add_in_row(
    alloc: Global,
    row: &mut BTreeMap<Txt, Sources>,
    name: &Txt,
    inst: &InstanceId,
) -> Result<(), NoMemory>
    ensures ok { OnOk result (SetsInRow true row.old.entries row.new.entries name.now inst.now) }
    ensures err { OnErr result (SameRow row.old.entries row.new.entries) }
{
    match row.get_mut(name) {
        Some(sources) => add_source(alloc, sources, inst),
        None => add_sources(alloc, row, name, inst),
    }
}

/// Adds a name with one source, where the row hasn't the name.
fn add_sources(
    alloc: Global,
    row: &mut BTreeMap<Txt, Sources>,
    name: &Txt,
    inst: &InstanceId,
) -> Result<(), NoMemory>
    requires { IsNone (tree.get (slice_cmp nat_cmp) row.old name.now) }
    ensures ok { OnOk result (SetsInRow true row.old.entries row.new.entries name.now inst.now) }
    ensures err { OnErr result (SameRow row.old.entries row.new.entries) }
{
    let key = name.copy(alloc)?;
    let mut sources = BTreeMap::new(alloc);
    add_source(alloc, &mut sources, inst)?;
    match row.insert(key, sources) {
        Ok(_) => Ok(()),
        Err(_) => Err(NoMemory),
    }
}

fn add_source(alloc: Global, sources: &mut Sources, inst: &InstanceId) -> Result<(), NoMemory>
    ensures ok { OnOk result (SetsSource true sources.old.entries sources.new.entries inst.now) }
    ensures err { OnErr result (sources.new.entries ≡ sources.old.entries) }
{
    let key = inst.copy(alloc)?;
    match sources.insert(key, ()) {
        Ok(_) => Ok(()),
        Err(_) => Err(NoMemory),
    }
}

/// Takes an instance out of the sources of a name. It takes no memory.
pub(crate) fn drop_name(index: &mut Index, number: u32, name: &Txt, inst: &InstanceId)
    ensures { SetsName false index.old.entries index.new.entries number name.now inst.now }
{
    if let Some(row) = index.get_mut(&number) {
        drop_in_row(row, name, inst);
    }
}

fn drop_in_row(row: &mut BTreeMap<Txt, Sources>, name: &Txt, inst: &InstanceId)
    ensures { SetsInRow false row.old.entries row.new.entries name.now inst.now }
{
    drop_source(row, name, inst);
    if has_no_source(row, name) {
        row.remove(name);
    }
}

fn drop_source(row: &mut BTreeMap<Txt, Sources>, name: &Txt, inst: &InstanceId)
    ensures { SetsInRow false row.old.entries row.new.entries name.now inst.now }
{
    if let Some(sources) = row.get_mut(name) {
        sources.remove(inst);
    }
}

/// Whether a row has a name without sources.
fn has_no_source(row: &BTreeMap<Txt, Sources>, name: &Txt) -> bool
    ensures { IsTrue result → (j : InstanceView) → is_in_row row.now.entries name.now j ≡ false }
{
    match row.get(name) {
        Some(sources) => sources.is_empty(),
        None => false,
    }
}

/// Takes a name's sources out.
pub(crate) fn take_sources(index: &mut Index, number: u32, name: &Txt) -> Option<Sources>
    ensures sources { (j : InstanceView) → option_map_or (λ sources. has_source sources.entries j) result false ≡ is_indexed index.old.entries number name.now j }
    ensures others { (q : ℕ) (n : List ℕ) (j : InstanceView) → is_indexed index.new.entries q n j ≡ cond (is_eq (nat_cmp q number) && is_text n name.now) false (is_indexed index.old.entries q n j) }
{
    match index.get_mut(&number) {
        Some(row) => row.remove(name),
        None => None,
    }
}

/// Adds an instance to the sources of names that it isn't a source of. For want of memory those that were added go.
pub(crate) fn add_names(
    alloc: Global,
    index: &mut Index,
    number: u32,
    names: &[Txt],
    inst: &InstanceId,
) -> Result<(), NoMemory>
    requires new { (n : List ℕ) → list_any (is_text n) names.now ≡ true → is_indexed index.old.entries number n inst.now ≡ false }
    ensures ok { OnOk result (SetsNames true index.old.entries index.new.entries number names.now inst.now) }
    ensures err { OnErr result (SameIndex index.old.entries index.new.entries) }
{
    for (at, name) in names.iter().enumerate() {
        if add_name(alloc, index, number, name, inst).is_err() {
            drop_names(index, number, &names[..at], inst);
            return Err(NoMemory);
        }
    }
    Ok(())
}

/// Takes an instance out of the sources of names. It takes no memory.
pub(crate) fn drop_names(index: &mut Index, number: u32, names: &[Txt], inst: &InstanceId)
    ensures { SetsNames false index.old.entries index.new.entries number names.now inst.now }
{
    for name in names {
        drop_name(index, number, name, inst);
    }
}
