// Where lines and lists can stand.
ghost use Rattle.std.specs.Prelude.{◌≡◌};
ghost use Rattle.opa_mean.specs.Slots as meant;

use crate::declared::{owner_of, source_of};
use opa_case::{Case, InstanceId};
use opa_model::{AttrId, RelId};
use opa_tree::Rulebase;

/// Whether the instance is live and of the attribute's entity.
pub fn has_place(base: &Rulebase, case: &Case, attr: AttrId, inst: &InstanceId) -> bool
    ensures { result ≡ meant.has_place base.now case.now attr inst.now }
{
    case.live(inst) && inst.entity.0 == owner_of(&base.model, attr)
}

/// Whether the instance is live and of the relation's source.
pub fn has_list_place(base: &Rulebase, case: &Case, rel: RelId, inst: &InstanceId) -> bool
    ensures { result ≡ meant.has_list_place base.now case.now rel inst.now }
{
    case.live(inst) && inst.entity.0 == source_of(&base.model, rel)
}

/// Whether the attribute has a rule, and the instance is live and of its entity.
pub fn is_slot(base: &Rulebase, case: &Case, attr: AttrId, inst: &InstanceId) -> bool
    ensures { result ≡ meant.is_slot base.now case.now attr inst.now }
{
    has_place(base, case, attr, inst) && base.rules.of(attr).is_some()
}
