// Texts that are printed as they stand.
ghost use Rattle.std.specs.Prelude.{◌≡◌, IfOk};

use opa_io::NoMemory;
use std::alloc::Global;

/// A text that is printed as it stands.
pub(crate) fn told(alloc: Global, text: &[u8]) -> Result<Vec<u8>, NoMemory>
    ensures { IfOk result (λ t. t.items ≡ text.now) }
{
    let told = text.to_vec(alloc)?;
    Ok(told)
}
