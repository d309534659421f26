// The nodes of a rule's code.
use crate::constant::Constant;
use opa_model::{AttrId, RelId};
use opa_tree::{OpKind, Quant, WinKind};

/// What makes the nodes behind it needless: a newest result that is false on every day, one that is true, or a true one
/// before it.
#[derive(Debug, Clone, Copy)]
pub(crate) enum Decider {
    AtFalse,
    AtTrue,
    Chosen,
}

/// A node of flat code. It takes so many operands as it says, the results of nodes before it that no other node took.
/// Attributes and relations stand with their entities. An `Over` says how many nodes its operand has, which stand
/// behind it; they are run for each listed instance. A `Leave` that is decided takes away so many results before the
/// newest one and passes over so many nodes; a `Pass` behind a false condition puts an uncertain value and passes over
/// so many.
#[derive(Debug, Drop)]
pub(crate) enum Node {
    Const(Constant),
    Attr(AttrId, u32),
    All(usize),
    Any(usize),
    Not,
    Op(OpKind, usize),
    Certain,
    Known,
    Over(Quant, RelId, u32, u32, usize),
    Window(WinKind, usize),
    Rolling(bool, u32),
    Choose,
    Leave(Decider, usize, usize),
    Pass(usize),
}
