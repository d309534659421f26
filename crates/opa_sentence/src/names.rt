// What the phrases of a line stand for.
ghost use Rattle.std.specs.Prelude.{◌≡◌, ◌+◌, min, IfOk};
ghost use Rattle.opa_tree.specs.Trees.{depth as depth_of};
ghost use Rattle.opa_sentence.specs.Measures.{nodes as nodes_of};
ghost use Rattle.opa_io.specs.declared.limits.TheConstants.{MOST_DEPTH, MOST_NODES};

use crate::sizes::{depth_of, nodes_of};
use opa_io::limits::{MOST_DEPTH, MOST_NODES};
use opa_io::{List, NoMemory};
use opa_model::{AttrId, RelId};
use opa_tree::Expr;
use opa_words::Phrases;
use std::alloc::Global;

/// An attribute, or that it is denied.
#[derive(Clone, Copy, Debug, PartialEq, Eq)]
pub struct Operand {
    pub attr: AttrId,
    pub denied: bool,
}

/// What stands in the place of a relation: a declared one, an inferred one by its place among the members, or words that
/// are no relation's phrase.
#[derive(Clone, Copy, Debug, PartialEq, Eq)]
pub enum Relation {
    Declared(RelId),
    Inferred(u32),
    Unnamed,
}

/// An inferred relation: the relation that it is taken from, and the tree that a member meets.
#[derive(Debug, Drop)]
pub struct Member {
    pub every: RelId,
    pub expr: Expr,
    pub depth: u32,
    pub nodes: u32,
    ghost deep: { depth ≡ min (depth_of expr) (MOST_DEPTH + 1) },
    ghost wide: { nodes ≡ min (nodes_of expr) (MOST_NODES + 1) },
}

/// The phrases of operands and of relations, each with what it stands for.
#[derive(Debug, Drop)]
pub struct Names {
    pub operands: Phrases,
    pub meanings: List<Operand>,
    pub relations: Phrases,
    pub related: List<Relation>,
    pub members: List<Member>,
}

impl Member {
    /// The members that meet a tree.
    pub fn new(alloc: Global, every: RelId, expr: &Expr) -> Result<Member, NoMemory>
        ensures every { IfOk result (λ m. m.every ≡ every) }
        ensures expr { IfOk result (λ m. m.expr ≡ expr.now) }
    {
        Ok(Member {
            every,
            expr: expr.copy(alloc)?,
            depth: depth_of(expr),
            nodes: nodes_of(expr),
        })
    }
}
