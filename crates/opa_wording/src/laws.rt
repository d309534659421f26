// What holds of written lines.
ghost use Rattle.opa_wording.specs.Laws.{LinesSpellTrees, FactorsSpellTrees, LinesAreCut, ReadableIsWritten, ReadableIsRead};
ghost use Rattle.opa_wording.specs.ReadBack.{LinesReadBack, RulesAreLaidOut, RulesAreSpelled, SmallRulesFit, RulesReadBack, RulesAreTight, RulesNestAtMost, RulesAreGiven, AllRulesAreGiven, InferencesAreGiven};

/// Where declared phrases are read as what they are declared for, the line that a tree is written as spells exactly that
/// tree by the grammar of a line, and its nesting is at most twice the depth of the tree.
#[tactic(auto, using(crate::proofs::LawsHold::laws))]
pub fn lines_spell_trees()
    ensures lines { LinesSpellTrees }
    ensures factors { FactorsSpellTrees }
{}

/// Where declared phrases are written as tokens, the text of a line is UTF-8 and is cut into the tokens that it is written as.
/// The phrases of a model that rules can read are.
#[tactic(auto, using(crate::proofs::LawsHold::cuts))]
pub fn lines_are_cut()
    ensures cut { LinesAreCut }
    ensures written { ReadableIsWritten }
{}

/// The phrases of a model that rules can read are read as what they are declared for, wherever they end.
#[tactic(auto, using(crate::proofs::LawsHold::phrases))]
pub fn phrases_are_read()
    ensures { ReadableIsRead }
{}

/// The text of a line reads back as its tree, and as nothing else.
#[tactic(auto, using(crate::proofs::LawsHold::back))]
pub fn lines_read_back()
    ensures { LinesReadBack }
{}

/// The text of a rule is laid out as its lines, and where it is within the limits, it reads back as that rule and as nothing
/// else.
#[tactic(auto, using(crate::proofs::LawsHold::back))]
pub fn rules_read_back()
    ensures laid { RulesAreLaidOut }
    ensures spelled { RulesAreSpelled }
    ensures rules { RulesReadBack }
    ensures small { SmallRulesFit }
{}

/// Each line of a rule stands at level 2 at most and is written as tokens with one blank between them or none. It begins
/// and ends with no blank, and nests no deeper than twice the depth of the rule's tree.
#[tactic(auto, using(crate::proofs::LawsHold::shape))]
pub fn rules_are_tight()
    ensures tight { RulesAreTight }
    ensures nested { RulesNestAtMost }
{}

/// Each rule that is read is one that the grammar gives, but for that of a table without cases, and so is each inferred
/// relation: the text of a rule that was read reads back.
pub fn rules_are_given()
    ensures rules { RulesAreGiven }
    ensures with_tables { AllRulesAreGiven }
    ensures inferences { InferencesAreGiven }
{}
