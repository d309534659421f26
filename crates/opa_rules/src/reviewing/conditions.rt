// Conditions that are found by hash.
ghost use Rattle.std.specs.Prelude.{◌≡◌};
ghost use Rattle.std.specs.Hash as fed;
ghost use Rattle.opa_rules.specs.Reviewing.Equality.{same_tree-equiv, same_tree-per, same_digest};
ghost use Rattle.opa_rules.specs.Reviewing.Digests.{digest as digest_of};
ghost use Rattle.opa_rules.specs.Reviewing.Trees.{same_tree};

use crate::reviewing::digests::digest;
use crate::same_trees::is_same;
use opa_tree::Expr;
use std::hash::{Hash, Hasher};
use std::marker::Model;

/// A tree with its digest, which contracts see as the tree.
#[derive(Drop)]
pub(crate) struct Condition<'a> {
    tree: &'a Expr,
    number: u64,
}

impl<'a> Model for Condition<'a> {
    ghost use Rattle.opa_tree.specs.declared.expr.Expr.{Expr as Tree};
    ghost use Rattle.opa_tree.specs.contracts.expr.Expr as each;

    ghost Value = { Tree };

    ghost coded = { each.the_row.coded };

    ghost use Rattle.std.specs.Prelude.{◌≡◌};
    ghost use Rattle.opa_rules.specs.Reviewing.Digests.{digest};

    ghost view = { λ c. c.tree.now };

    ghost invariant = { λ c. c.number ≡ digest c.tree.now };
}

impl<'a> Condition<'a> {
    pub(crate) fn new(tree: &'a Expr) -> Condition<'a>
        ensures { result ≡ tree.now }
    {
        Condition {
            tree,
            number: digest(tree),
        }
    }
}

impl<'a> PartialEq for Condition<'a> {
    ghost eq = { same_tree };

    ghost laws = { same_tree-per };

    #[tactic(auto, using(crate::proofs::reviewing::EarlierLaws::other_digest))]
    fn eq(&self, other: &Condition<'a>) -> bool {
        self.number == other.number && is_same(self.tree, other.tree)
    }
}

impl<'a> Eq for Condition<'a> {
    ghost laws = { same_tree-equiv };
}

impl<'a> Hash for Condition<'a> {
    ghost hash_input = { λ tree. fed.u64 (digest_of tree) };

    ghost respects_eq = { same_digest };

    fn hash<H: Hasher>(&self, state: &mut H) {
        self.number.hash(state);
    }
}
