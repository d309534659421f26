// What the lines of a report tell, by key.
ghost use Rattle.std.specs.Prelude.{◌≡◌, ◌∷◌, ◌++◌, [], IfOk, OnOk, List as Seq};
ghost use Rattle.opa_report.specs.declared.lines.ReportLine.{ReportLine as Line};
ghost use Rattle.opa_verify.specs.Support.Ledgers as meant;
ghost use Rattle.opa_verify.specs.Support.Ledgers.{Holds};

use crate::listed::{Listed, Run};
use opa_cells::{Cells, InstanceId};
use opa_io::{List, NoMemory, Txt};
use opa_model::{AttrId, RelId};
use opa_report::ReportLine;
use opa_value::Value;
use std::alloc::Global;

/// The runs of each point, the list of each relation and the container of each instance; containers stand at number 0.
#[derive(Drop)]
pub(crate) struct Told {
    pub(crate) runs: Cells<List<Run>>,
    pub(crate) lists: Cells<Listed>,
    pub(crate) containers: Cells<InstanceId>,
}

/// What these lines tell: of several that tell something the first counts.
pub(crate) fn told_by(alloc: Global, lines: &[ReportLine]) -> Result<Told, NoMemory>
    ensures { IfOk result (λ t. Holds t lines.now) }
{
    let mut told = nothing_told(alloc);
    for line in lines {
        add_line(alloc, &mut told, line)?;
    }
    Ok(told)
}

fn nothing_told(alloc: Global) -> Told
    ensures { Holds result [] }
{
    Told {
        runs: Cells::new(alloc),
        lists: Cells::new(alloc),
        containers: Cells::new(alloc),
    }
}

fn add_line(alloc: Global, told: &mut Told, line: &ReportLine) -> Result<(), NoMemory>
    ensures { (lines : Seq Line) → Holds told.old lines → OnOk result (Holds told.new (lines ++ line.now ∷ [])) }
{
    match line {
        ReportLine::Point {
            attr,
            inst,
            first,
            last,
            value,
        } => add_run(alloc, &mut told.runs, *attr, inst, *first, *last, value),
        ReportLine::Members { rel, inst, names } => {
            add_list(alloc, &mut told.lists, *rel, inst, names)
        }
        ReportLine::Member {
            rel: _,
            container,
            inst,
        } => add_container(alloc, &mut told.containers, container, inst),
    }
}

fn add_run(
    alloc: Global,
    runs: &mut Cells<List<Run>>,
    attr: AttrId,
    inst: &InstanceId,
    start: u32,
    end: u32,
    value: &Value,
) -> Result<(), NoMemory>
    ensures { OnOk result (runs.new ≡ meant.put_run runs.old (attr.0, inst.now) (record { start = start; end = end; value = value.now })) }
{
    let value = value.copy(alloc)?;
    let run = Run { start, end, value };
    put_run(alloc, runs, attr, inst, run)
}

fn put_run(
    alloc: Global,
    runs: &mut Cells<List<Run>>,
    attr: AttrId,
    inst: &InstanceId,
    run: Run,
) -> Result<(), NoMemory>
    ensures { OnOk result (runs.new ≡ meant.put_run runs.old (attr.0, inst.now) run) }
{
    match runs.get_mut(attr.0, inst) {
        Some(own) => {
            own.push(run)?;
            Ok(())
        }
        None => {
            let own = only(alloc, run)?;
            let key = inst.copy(alloc)?;
            runs.insert(attr.0, key, own)?;
            Ok(())
        }
    }
}

fn only(alloc: Global, run: Run) -> Result<List<Run>, NoMemory>
    ensures { IfOk result (λ runs. runs ≡ run ∷ []) }
{
    let mut runs = List::new(alloc);
    runs.push(run)?;
    Ok(runs)
}

fn add_list(
    alloc: Global,
    lists: &mut Cells<Listed>,
    rel: RelId,
    inst: &InstanceId,
    names: &Option<List<Txt>>,
) -> Result<(), NoMemory>
    ensures { OnOk result (lists.new ≡ meant.put_first lists.old (rel.0, inst.now) (meant.kept_list names.now)) }
{
    if lists.get(rel.0, inst).is_none() {
        let list = kept_list(alloc, names)?;
        let key = inst.copy(alloc)?;
        lists.insert(rel.0, key, list)
    } else {
        Ok(())
    }
}

fn kept_list(alloc: Global, names: &Option<List<Txt>>) -> Result<Listed, NoMemory>
    ensures { IfOk result (λ l. l ≡ meant.kept_list names.now) }
{
    match names {
        None => Ok(Listed::Unknown),
        Some(names) => Ok(Listed::Known(copied(alloc, names.as_slice())?)),
    }
}

pub(crate) fn copied(alloc: Global, names: &[Txt]) -> Result<List<Txt>, NoMemory>
    ensures { IfOk result (λ all. all ≡ names.now) }
{
    let mut all = List::new(alloc);
    for name in names {
        all.push(name.copy(alloc)?)?;
    }
    Ok(all)
}

fn add_container(
    alloc: Global,
    containers: &mut Cells<InstanceId>,
    container: &InstanceId,
    inst: &InstanceId,
) -> Result<(), NoMemory>
    ensures { OnOk result (containers.new ≡ meant.put_first containers.old (0, inst.now) container.now) }
{
    if containers.get(0, inst).is_none() {
        let above = container.copy(alloc)?;
        let key = inst.copy(alloc)?;
        containers.insert(0, key, above)
    } else {
        Ok(())
    }
}
