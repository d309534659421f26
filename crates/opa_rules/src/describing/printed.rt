// The text of a JSON value.
ghost use Rattle.std.specs.Prelude.{◌≡◌, ◌≤◌, ◌++◌, ◌∷◌, [], false, IfOk};
ghost use Rattle.serde_json.specs.Data.{depth};
ghost use Rattle.serde_json.specs.Read.{max_depth};
ghost use Rattle.serde_json.specs.View.{view};
ghost use Rattle.serde_json.specs.Written.{compact_text, has_float};
ghost use Rattle.opa_saved.specs.Saved.{ReadsAs};

use serde_json::Value as Json;
use std::alloc::{AllocError, Global};

/// The compact text of a value, and a line feed. It reads as that value.
pub(crate) fn text_of(alloc: Global, value: &Json) -> Result<Vec<u8>, AllocError>
    requires no_float { has_float (view value.now) ≡ false }
    requires shallow { depth (view value.now) ≤ max_depth }
    ensures text { IfOk result (λ b. b.items ≡ compact_text (view value.now) ++ 10 ∷ []) }
    ensures back { IfOk result (λ b. ReadsAs b.items (view value.now)) }
{
    let mut text = value.to_vec(alloc)?;
    match text.push(b'\n') {
        Ok(()) => Ok(text),
        Err(_) => Err(AllocError),
    }
}
