// Copies of names and of answers.
ghost use Rattle.std.specs.Prelude.{◌≡◌, IfOk};

use opa_cells::{Copies, InstanceId};
use opa_io::{List, NoMemory, Txt};
use opa_line::Line;
use opa_value::Value;
use std::alloc::Global;

/// Copies names one by one.
#[derive(Clone, Copy)]
pub(crate) struct EachName;

impl Copies<List<Txt>> for EachName {
    fn copy(&self, alloc: Global, names: &List<Txt>) -> Result<List<Txt>, NoMemory> {
        copy_names(alloc, names.as_slice())
    }
}

fn copy_names(alloc: Global, names: &[Txt]) -> Result<List<Txt>, NoMemory>
    ensures { IfOk result (λ copied. copied ≡ names.now) }
{
    let mut copied = List::new(alloc);
    for name in names {
        copied.push(name.copy(alloc)?)?;
    }
    Ok(copied)
}

/// Copies the value of each day.
#[derive(Clone, Copy)]
pub(crate) struct EachValue;

impl Copies<Line<Value>> for EachValue {
    fn copy(&self, alloc: Global, line: &Line<Value>) -> Result<Line<Value>, NoMemory> {
        copy_line(alloc, line)
    }
}

fn copy_line(alloc: Global, line: &Line<Value>) -> Result<Line<Value>, NoMemory>
    ensures { IfOk result (λ copied. copied ≡ line.now) }
{
    let copied = line.map(alloc, |value: &Value| value.copy(alloc))?;
    let _form = line.segments();
    let _copied_form = copied.segments();
    Ok(copied)
}

/// Copies an instance.
#[derive(Clone, Copy)]
pub(crate) struct EachInstance;

impl Copies<InstanceId> for EachInstance {
    fn copy(&self, alloc: Global, inst: &InstanceId) -> Result<InstanceId, NoMemory> {
        inst.copy(alloc)
    }
}
