// Tables of marks, one for each attribute in declared order.
ghost use Rattle.std.specs.Prelude.{◌≡◌, ◌<◌, false, true, [], ◌∷◌, length, replicate, slice_set, IfOk};
ghost use Rattle.std.specs.List.{list_all};
ghost use Rattle.opa_rules.specs.Reviewing.Marks.{told, AddsMarks};

use opa_io::NoMemory;
use opa_model::AttrId;
use std::alloc::Global;

/// Nothing is marked yet.
pub(crate) fn no_marks(alloc: Global, count: u32) -> Result<Vec<bool>, NoMemory>
    ensures { IfOk result (λ marks. marks.items ≡ replicate count false) }
{
    let mut marks = Vec::new(alloc);
    for _ in 0..count {
        marks.push(false)?;
    }
    Ok(marks)
}

/// Whether an attribute is marked; past the end of the table it isn't.
pub(crate) fn is_marked(marks: &[bool], attr: AttrId) -> bool
    ensures { result ≡ told marks.now attr }
{
    match marks.get(attr.0 as usize) {
        Some(marked) => *marked,
        None => false,
    }
}

/// Whether all the attributes are marked.
pub(crate) fn are_marked(marks: &[bool], attrs: &[AttrId]) -> bool
    ensures { result ≡ list_all (told marks.now) attrs.now }
{
    for attr in attrs {
        if !is_marked(marks, *attr) {
            return false;
        }
    }
    true
}

pub(crate) fn put(marks: &mut Vec<bool>, attr: AttrId, mark: bool)
    requires { attr.0 < length marks.old.items }
    ensures { marks.new.items ≡ slice_set marks.old.items attr.0 mark }
{
    marks[attr.0 as usize] = mark;
}

/// Marks an attribute, if the table tells of it.
fn mark(marks: &mut Vec<bool>, attr: AttrId)
    ensures { AddsMarks marks.old.items (attr ∷ []) marks.new.items }
{
    if (attr.0 as usize) < marks.len() {
        put(marks, attr, true);
    }
}

/// Marks attributes.
pub(crate) fn mark_all(marks: &mut Vec<bool>, attrs: &[AttrId])
    ensures { AddsMarks marks.old.items attrs.now marks.new.items }
{
    for attr in attrs {
        mark(marks, *attr);
    }
}
