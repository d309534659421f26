// What the text of the generated rulebase opens.
ghost use Rattle.opa_laws.specs.Generated.{GeneratedIsAccepted, GeneratedIsNotRefused, OnlyRulesAreAccepted, OnlyRulesAreRules};

use crate::decided::one_opening;

/// The generated rulebase is accepted, under whatever name its text is on a shelf, and so it is never refused.
pub fn generated_is_accepted()
    ensures accepted { GeneratedIsAccepted }
    ensures not_refused { GeneratedIsNotRefused }
    ensures alone { OnlyRulesAreRules }
    ensures accepted_alone { OnlyRulesAreAccepted }
{
    one_opening();
}
