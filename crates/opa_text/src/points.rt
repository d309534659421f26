// The text of a point.
ghost use Rattle.std.specs.Prelude.{◌≡◌, IfOk};
ghost use Rattle.opa_text.specs.Points.{point_text as point_text_of, instance_part as instance_part_of};

use opa_cells::InstanceId;
use opa_io::{NoMemory, Txt};
use opa_words::quoted;
use std::alloc::Global;

/// A phrase at an instance: `the child is at school of "Ben"`.
pub fn point_text(alloc: Global, phrase: &Txt, inst: &InstanceId) -> Result<Txt, NoMemory>
    ensures { IfOk result (λ t. t ≡ point_text_of phrase.now inst.now) }
{
    let of = instance_part(alloc, inst)?;
    let text = format!(in alloc; "{}{}", phrase.as_str(), of.as_str())?;
    Ok(Txt::from_string(text))
}

/// ` of "NAME"`, and nothing for the global instance.
pub(crate) fn instance_part(alloc: Global, inst: &InstanceId) -> Result<Txt, NoMemory>
    ensures { IfOk result (λ t. t ≡ instance_part_of inst.now) }
{
    if inst.is_global() {
        return Txt::from_str(alloc, "");
    }
    let name = quoted(alloc, inst.name.as_str())?;
    let text = format!(in alloc; " of {}", name.as_str())?;
    Ok(Txt::from_string(text))
}
