// What holds of the grammar of blocks.
ghost use Rattle.opa_parse.specs.Laws.{OneRule, OneMembership, GroupsAreRead, CasesAreRead, GroupsAreGrammatical};

/// A block spells at most one rule, or at most one membership block. What the grammar of groups spells is read, and what
/// is read it spells.
#[tactic(auto, using(crate::proofs::LawsHold::laws))]
pub fn one_rule()
    ensures rule { OneRule }
    ensures membership { OneMembership }
    ensures groups { GroupsAreRead }
    ensures cases { CasesAreRead }
    ensures grammatical { GroupsAreGrammatical }
{}
