// The code of a rule.
use crate::node::Node;
use opa_io::List;
use opa_model::AttrId;

/// The nodes of a rule's tree, the attribute that it concludes, and whether that is money.
#[derive(Debug, Drop)]
pub struct RuleCode {
    pub(crate) attr: AttrId,
    pub(crate) money: bool,
    pub(crate) nodes: List<Node>,
}
