// Each tree that stands for a quantifier over an inferred relationship counts its members alone.
ghost use Rattle.opa_mean.specs.Kinds.Membership.{ForAllMembers, ExistsMember, CountsMembers, CountsMembersIf, SumsMembers, SumsMembersIf};

/// Where the list is known and each membership is true or false, the tree that stands for a quantifier over an inferred
/// relationship has the value of that quantifier over the members alone. Where the list is unknown, it is unknown.
#[tactic(auto, using(crate::proofs::kinds::MembersCounted::laws))]
pub fn members_count()
    ensures for_all { ForAllMembers }
    ensures exists { ExistsMember }
    ensures count { CountsMembers }
    ensures count_if { CountsMembersIf }
    ensures sum { SumsMembers }
    ensures sum_if { SumsMembersIf }
{}
