// Whether two trees are equal, as a definition says it.
ghost use Rattle.std.specs.Prelude.{◌≡◌};
ghost use Rattle.opa_rules.specs.Reviewing.Trees.{same_tree as same_tree_of};

use opa_mean::same_tree;
use opa_tree::Expr;

/// Whether two trees are equal.
#[tactic(auto, using(crate::proofs::reviewing::TreeLaws::same_tree_by))]
pub(crate) fn is_same(tree: &Expr, other: &Expr) -> bool
    ensures { result ≡ same_tree_of tree.now other.now }
{
    same_tree(tree, other)
}
