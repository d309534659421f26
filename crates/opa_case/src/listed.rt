// Known lists, with an index of the names in them.
ghost use Rattle.std.specs.Prelude.{map as items, ◌≡◌, ◌==◌, ◌&&◌, ℕ, List as Seq, [], Option, None, cond, unwrap_or, true, false, IfOk, OnOk, OnErr};
ghost use Rattle.std.specs.List.{list_any};
ghost use Rattle.std.specs.Option.{option_copied};
ghost use Rattle.std.specs.FinMap as map;
ghost use Rattle.std.specs.Ordering.{nat_cmp, is_eq};
ghost use Rattle.opa_cells.specs.Instances.{is_text};
ghost use Rattle.opa_cells.specs.Rows.{cells_at, insert_all, seen};
ghost use Rattle.opa_cells.specs.declared.instance.InstanceId.{InstanceId as InstanceView};
ghost use Rattle.opa_case.specs.Listed.{has_source, is_indexed, is_named_in, is_list, IsIndexOf, SetsNames, SameIndex};

use crate::copies::EachName;
use crate::index::{Index, Sources, add_names, drop_names, take_sources};
use crate::names::names_without;
use opa_cells::{Cells, Copies, InstanceId};
use opa_io::{List, NoMemory, Txt};
use std::alloc::Global;
use std::collections::BTreeMap;
use std::marker::Model;

/// The known lists, and for each relation the instances in whose list a name stands.
#[derive(Drop)]
pub(crate) struct Listed {
    alloc: Global,
    cells: Cells<List<Txt>>,
    index: Index,
}

impl Model for Listed {
    ghost use Rattle.std.specs.FinMap as map;
    ghost use Rattle.opa_cells.specs.Keys.{cell_cmp};
    ghost use Rattle.opa_case.specs.Live.{Names};
    ghost use Rattle.opa_case.specs.Cases.{coded_lists};
    ghost use Rattle.opa_case.specs.Listed.{IsIndexOf};

    ghost Value = { map.FinMap cell_cmp Names };

    ghost coded = { coded_lists };

    ghost view = { λ l. l.cells };

    ghost invariant = { λ l. IsIndexOf l.cells l.index.entries };
}

impl Listed {
    pub(crate) fn new(alloc: Global) -> Listed
        ensures { result ≡ map.empty }
    {
        Listed {
            alloc,
            cells: Cells::new(alloc),
            index: BTreeMap::new(alloc),
        }
    }

    pub(crate) fn get(&self, number: u32, inst: &InstanceId) -> Option<&List<Txt>>
        ensures { option_copied result ≡ map.get self.now (number, inst.now) }
    {
        self.cells.get(number, inst)
    }

    /// The lists in order of their keys.
    pub(crate) fn each(
        &self,
        alloc: Global,
    ) -> Result<Vec<(u32, &InstanceId, &List<Txt>)>, NoMemory>
        ensures { IfOk result (λ cells. items seen cells.items ≡ map.entries self.now) }
    {
        let cells = self.cells.each(alloc)?;
        Ok(cells)
    }

    /// How many lists are known.
    pub(crate) fn len(&self) -> u64
        ensures { result ≡ map.len self.now }
    {
        self.cells.len()
    }

    /// How many lists of a relation are known.
    pub(crate) fn len_of(&self, number: u32) -> u64
        ensures { result ≡ cells_at self.now number }
    {
        self.cells.len_of(number)
    }

    /// The instances in whose list a name stands, for each relation.
    pub(crate) fn index(&self) -> &Index
        ensures { IsIndexOf self.now result.now.entries }
    {
        &self.index
    }

    /// Makes a list known. It goes through the old and the new names, and through no other list.
    pub(crate) fn insert(
        &mut self,
        number: u32,
        inst: InstanceId,
        names: List<Txt>,
    ) -> Result<(), NoMemory>
        ensures ok { OnOk result (self.new ≡ map.insert self.old (number, inst) names) }
        ensures err { OnErr result (self.new ≡ self.old) }
    {
        let known = known_names(self.cells.get(number, &inst));
        let coming = names_without(self.alloc, names.as_slice(), known)?;
        let leaving = names_without(self.alloc, known, names.as_slice())?;
        let key = inst.copy(self.alloc)?;
        put_in(
            self.alloc,
            &mut self.cells,
            &mut self.index,
            number,
            inst,
            names,
            coming.as_slice(),
        )?;
        drop_names(&mut self.index, number, leaving.as_slice(), &key);
        Ok(())
    }

    /// Makes a list unknown. It takes no memory.
    pub(crate) fn remove(&mut self, number: u32, inst: &InstanceId)
        ensures { self.new ≡ map.remove self.old (number, inst.now) }
    {
        take_out(&mut self.cells, &mut self.index, number, inst);
    }

    /// Makes each list of a relation unknown that has a name. It goes through those lists alone, and takes no memory.
    pub(crate) fn remove_naming(&mut self, number: u32, name: &Txt)
        ensures { (q : ℕ) (j : InstanceView) → map.get self.new (q, j) ≡ cond (q == number && is_named_in (map.get self.old (q, j)) name.now) None (map.get self.old (q, j)) }
    {
        if let Some(sources) = take_sources(&mut self.index, number, name) {
            take_each(&mut self.cells, &mut self.index, number, sources);
        }
    }
}

impl Listed {
    /// An equal map.
    pub(crate) fn copy(&self, alloc: Global) -> Result<Listed, NoMemory>
        ensures { IfOk result (λ copied. copied ≡ self.now) }
    {
        let each = self.cells.each(alloc)?;
        let mut copied = Listed::new(alloc);
        copied.fill(alloc, &each)?;
        Ok(copied)
    }

    /// Makes copies of lists known, one after another.
    fn fill(
        &mut self,
        alloc: Global,
        lists: &[(u32, &InstanceId, &List<Txt>)],
    ) -> Result<(), NoMemory>
        ensures { OnOk result (self.new ≡ insert_all self.old (items seen lists.now)) }
    {
        for (number, inst, names) in lists {
            let key = inst.copy(alloc)?;
            let copied = EachName.copy(alloc, names)?;
            self.insert(*number, key, copied)?;
        }
        Ok(())
    }
}

/// The names of a list, and none of one that isn't known.
pub(crate) fn known_names(known: Option<&List<Txt>>) -> &[Txt]
    ensures { result.now ≡ unwrap_or (option_copied known.entry) [] }
{
    match known {
        Some(names) => names.as_slice(),
        None => &[],
    }
}

/// Puts a list in, with names to the index that the list there hasn't. For want of memory all is as it was.
fn put_in(
    alloc: Global,
    cells: &mut Cells<List<Txt>>,
    index: &mut Index,
    number: u32,
    inst: InstanceId,
    names: List<Txt>,
    coming: &[Txt],
) -> Result<(), NoMemory>
    requires new { (n : Seq ℕ) → list_any (is_text n) coming.now ≡ true → is_indexed index.old.entries number n inst ≡ false }
    ensures ok_cells { OnOk result (cells.new ≡ map.insert cells.old (number, inst) names) }
    ensures ok_index { OnOk result (SetsNames true index.old.entries index.new.entries number coming.now inst) }
    ensures err_cells { OnErr result (cells.new ≡ cells.old) }
    ensures err_index { OnErr result (SameIndex index.old.entries index.new.entries) }
{
    let key = inst.copy(alloc)?;
    add_names(alloc, index, number, coming, &key)?;
    if cells.insert(number, inst, names).is_err() {
        drop_names(index, number, coming, &key);
        return Err(NoMemory);
    }
    Ok(())
}

/// Takes a list out, where there is one, and its instance out of the index. It takes no memory.
fn take_out(cells: &mut Cells<List<Txt>>, index: &mut Index, number: u32, inst: &InstanceId)
    ensures cells { cells.new ≡ map.remove cells.old (number, inst.now) }
    ensures index { (q : ℕ) (n : Seq ℕ) (j : InstanceView) → is_indexed index.new.entries q n j ≡ cond (is_list number inst.now q j && is_named_in (map.get cells.old (q, j)) n) false (is_indexed index.old.entries q n j) }
{
    drop_names(index, number, known_names(cells.get(number, inst)), inst);
    cells.remove(number, inst);
}

/// Takes the lists of a relation out that instances have. It takes no memory.
fn take_each(cells: &mut Cells<List<Txt>>, index: &mut Index, number: u32, sources: Sources)
    ensures cells { (q : ℕ) (j : InstanceView) → map.get cells.new (q, j) ≡ cond (is_eq (nat_cmp q number) && has_source sources.entries j) None (map.get cells.old (q, j)) }
    ensures index { (q : ℕ) (n : Seq ℕ) (j : InstanceView) → is_indexed index.new.entries q n j ≡ cond (is_eq (nat_cmp q number) && has_source sources.entries j && is_named_in (map.get cells.old (q, j)) n) false (is_indexed index.old.entries q n j) }
{
    for (inst, ()) in sources {
        take_out(cells, index, number, &inst);
    }
}
