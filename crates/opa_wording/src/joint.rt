// What stands between the parts of a tree.

use opa_tree::OpKind;

/// What stands between the parts of a tree: a comma, a word or an operation's sign.
#[derive(Clone, Copy, Debug, PartialEq, Eq)]
pub enum Joint {
    Comma,
    And,
    Or,
    Sign(OpKind),
}
