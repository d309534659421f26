// The files of a shelf open at most one thing.
ghost use Rattle.opa_laws.specs.Decided.Checking.{OneCheckFault, OneCircle, RulebasesAreNotRefused};
ghost use Rattle.opa_laws.specs.Decided.Opening.{AcceptedOrRefused, OneBase, OneOpening, OneRefusal};
ghost use Rattle.opa_laws.specs.Decided.Reading.{InferencesOrFault, OneDeclarationFault, OneInferences, OneMemberBlocks, OneMemberFault, OneRuleBlocks, OneRuleFault, OneRuleList, OneTabling, RulesOrFault};
ghost use Rattle.opa_laws.specs.Decided.Taking.{OneLaying, OneTaken};

/// A name on a shelf gives at most one list of files, or one fault of a file, and never both. Files are laid out in at most one
/// list of blocks.
#[tactic(auto, using(crate::proofs::decided::LawsHold::laws))]
pub fn one_taking()
    ensures taken { OneTaken }
    ensures laid { OneLaying }
{}

/// Declaration blocks have at most one first fault.
#[tactic(auto, using(crate::proofs::decided::LawsHold::laws))]
pub fn one_declaration_fault()
    ensures { OneDeclarationFault }
{}

/// The membership blocks and the rules among blocks are found in at most one way, and so are the rules of tables.
#[tactic(auto, using(crate::proofs::decided::LawsHold::laws))]
pub fn one_finding()
    ensures members { OneMemberBlocks }
    ensures rules { OneRuleBlocks }
    ensures tables { OneTabling }
{}

/// Blocks have at most one list of inferred relations, or one first fault of their membership blocks, and never both.
#[tactic(auto, using(crate::proofs::decided::LawsHold::laws))]
pub fn one_inference()
    ensures inferences { OneInferences }
    ensures fault { OneMemberFault }
    ensures either { InferencesOrFault }
{}

/// Blocks and tables have at most one list of rules, or one first fault of them, and never both.
#[tactic(auto, using(crate::proofs::decided::LawsHold::laws))]
pub fn one_rule_list()
    ensures rules { OneRuleList }
    ensures fault { OneRuleFault }
    ensures either { RulesOrFault }
{}

/// Rules that are checked are refused for at most one fault, with at most one circle, and those of a rulebase aren't refused.
#[tactic(auto, using(crate::proofs::decided::LawsHold::laws))]
pub fn one_check_fault()
    ensures circle { OneCircle }
    ensures fault { OneCheckFault }
    ensures accepted { RulebasesAreNotRefused }
{}

/// Files spell at most one rulebase, or are refused for one fault, with one circle, and never both.
#[tactic(auto, using(crate::proofs::decided::LawsHold::laws))]
pub fn one_acceptance()
    ensures refusal { OneRefusal }
    ensures either { AcceptedOrRefused }
    ensures base { OneBase }
{}

/// The files of a shelf open at most one thing under a name: an accepted rulebase, or a refusal as it is printed.
#[tactic(auto, using(crate::proofs::decided::LawsHold::laws))]
pub fn one_opening()
    ensures { OneOpening }
{}
