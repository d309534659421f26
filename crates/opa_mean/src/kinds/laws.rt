// What accepted rules conclude has its kind.
ghost use Rattle.opa_mean.specs.Kinds.Laws.{ConditionsAreTruths, ForStandsToOne, ValuesHaveKinds};
ghost use Rattle.opa_mean.specs.Kinds.Memberships.{MembershipsCount};
ghost use Rattle.opa_tree.specs.declared.rulebase.Rulebase.{Rulebase};

use crate::kinds::members::members_count;

/// In accepted rules, and over every case that fits them, each value of an attribute is unknown, uncertain, or a plain value
/// of the attribute's kind.
#[tactic(auto, using(crate::proofs::kinds::LawsHold::laws))]
pub fn values_have_kinds()
    ensures { ValuesHaveKinds }
{}

/// In accepted rules, and over every case that fits them, each operand of `all`, `any`, `not` and of a quantifier over truth
/// values is true, false, unknown or uncertain.
#[tactic(auto, using(crate::proofs::kinds::LawsHold::laws))]
pub fn conditions_are_truths()
    ensures { ConditionsAreTruths }
{}

/// In accepted rules `for` stands over declared relations to one alone.
#[tactic(auto, using(crate::proofs::kinds::LawsHold::laws))]
pub fn for_stands_to_one()
    ensures { ForStandsToOne }
{}

/// In accepted rules, and over every case that fits them, each tree that stands for a quantifier over an inferred relationship
/// counts its members alone.
pub fn memberships_count()
    ensures { (r : Rulebase) → MembershipsCount r }
{
    members_count();
}
