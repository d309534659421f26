// The text of an origin.
ghost use Rattle.std.specs.Prelude.{◌≡◌, IfOk};
ghost use Rattle.opa_verify.specs.Spelling.Printed as meant;

use crate::spelling::printed::Origin;
use opa_io::{NoMemory, Txt};
use std::alloc::Global;

/// Where a value comes from.
pub fn origin_text(alloc: Global, origin: &Origin) -> Result<Txt, NoMemory>
    ensures { IfOk result (λ t. t ≡ meant.origin_text origin.now) }
{
    match origin {
        Origin::Rule { file, line } => {
            let text = format!(in alloc; "rule {}:{}", file.as_str(), *line)?;
            Ok(Txt::from_string(text))
        }
        Origin::Answer => Txt::from_str(alloc, "answer"),
        Origin::Unanswered => Txt::from_str(alloc, "unanswered"),
    }
}
