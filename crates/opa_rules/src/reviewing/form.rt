// How findings are written.
ghost use Rattle.std.specs.Prelude.{◌≡◌, IfOk};
ghost use Rattle.opa_rules.specs.Reviewing.Findings as meant;

use crate::reviewing::document::review_json;
use crate::reviewing::printed::review_text;
use opa_io::NoMemory;
use opa_tree::Rulebase;
use std::alloc::Global;

/// One line a finding, or one document for all.
#[derive(Clone, Copy, Debug, PartialEq, Eq)]
pub enum Form {
    Lines,
    Json,
}

/// What is worth a look in a rulebase.
pub(crate) fn shown(alloc: Global, base: &Rulebase, form: Form) -> Result<Vec<u8>, NoMemory>
    ensures { IfOk result (λ b. b.items ≡ meant.shown form base.now) }
{
    match form {
        Form::Lines => review_text(alloc, base),
        Form::Json => review_json(alloc, base),
    }
}
