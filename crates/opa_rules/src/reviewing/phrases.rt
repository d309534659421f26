// The phrases that findings name.
ghost use Rattle.std.specs.Prelude.{◌≡◌};
ghost use Rattle.opa_rules.specs.Reviewing.Phrases as meant;

use opa_model::{AttrId, Model, RelId};

/// The phrase of an attribute, empty if it isn't declared.
#[tactic(auto, using(std::proofs::lemmas::Option::slice_get_past))]
pub(crate) fn phrase_of(model: &Model, attr: AttrId) -> &str
    ensures { result.now ≡ meant.phrase_of model.now attr }
{
    if attr.0 < model.attribute_count() {
        model.attribute(attr).phrase.as_str()
    } else {
        ""
    }
}

/// The phrase of a list, empty if it isn't declared.
#[tactic(auto, using(std::proofs::lemmas::Option::slice_get_past))]
pub(crate) fn list_phrase_of(model: &Model, rel: RelId) -> &str
    ensures { result.now ≡ meant.list_phrase_of model.now rel }
{
    if rel.0 < model.relation_count() {
        model.relation(rel).phrase.as_str()
    } else {
        ""
    }
}
