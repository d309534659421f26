// What a part of a line says.
ghost use Rattle.std.specs.Prelude.{◌≡◌, IfOk};
ghost use Rattle.opa_sentence.specs.Measures.{bounded, above as above_of};
ghost use Rattle.opa_sentence.specs.Readings.{kept as kept_of, literal as literal_of, is_short as is_short_of, literal_measure, unnamed as unnamed_of, attribute as attribute_of, no_parts, with_tree as with_tree_of, with_part, one_part, nested, all as all_of, any as any_of, operation as operation_of, denial as denial_of, operand as operand_of, between as between_of};

use crate::{Measure, Operand, Relation};
use opa_io::limits::MOST_TEXT;
use opa_io::{Boxed, List, NoMemory};
use opa_model::AttrId;
use opa_tree::{Expr, OpKind};
use opa_value::{Number, Value};
use std::alloc::Global;

/// A tree, if all of it is named and within its numbers, and its measure.
#[derive(Debug, Drop)]
pub struct Reading {
    pub tree: Option<Expr>,
    pub measure: Measure,
}

/// Several trees, if all of them are named and within their numbers, and their measure.
#[derive(Debug, Drop)]
pub struct Parts {
    pub trees: Option<List<Expr>>,
    pub measure: Measure,
}

/// What stands between the brackets of a call: at most one relation, at most one number, and lines.
#[derive(Debug, Drop)]
pub struct Arguments {
    pub relation: Relation,
    pub number: Option<Number>,
    pub lines: List<Reading>,
}

/// What fits the measure.
pub fn kept<T: Drop>(measure: Measure, found: Option<T>) -> Option<T>
    ensures { result ≡ kept_of bounded measure found }
{
    if measure.fits() { found } else { None }
}

fn is_short(value: &Value) -> bool
    ensures { result ≡ is_short_of value.now }
{
    match value {
        Value::Words(text) => text.as_str().len() <= MOST_TEXT,
        _ => true,
    }
}

impl Measure {
    /// Of a literal.
    fn of_literal(value: &Value) -> Measure
        ensures { result ≡ literal_measure bounded value.now }
    {
        Measure {
            depth: 1,
            nodes: 1,
            nesting: 0,
            named: true,
            short: is_short(value),
        }
    }
}

impl Reading {
    pub fn literal(value: Value) -> Reading
        ensures { result ≡ literal_of bounded value }
    {
        let measure = Measure::of_literal(&value);
        Reading {
            tree: kept(measure, Some(Expr::Const(value))),
            measure,
        }
    }

    /// Of an operand that isn't declared.
    pub fn unnamed() -> Reading
        ensures { result ≡ unnamed_of bounded }
    {
        Reading {
            tree: None,
            measure: Measure::leaf().unnamed(),
        }
    }

    pub fn attribute(attr: AttrId) -> Reading
        ensures { result ≡ attribute_of bounded attr }
    {
        Reading {
            tree: Some(Expr::Attr(attr)),
            measure: Measure::leaf(),
        }
    }

    /// A part inside a bracket, a call or a prefix.
    pub fn nested(self) -> Reading
        ensures { result ≡ nested bounded self }
    {
        let measure = self.measure.inside();
        Reading {
            tree: kept(measure, self.tree),
            measure,
        }
    }

    pub fn denial(self, alloc: Global) -> Result<Reading, NoMemory>
        ensures { IfOk result (λ r. r ≡ denial_of bounded self) }
    {
        let (tree, measure) = self.raised(alloc)?;
        Ok(Reading {
            tree: tree.map(|e| Expr::Not(e)),
            measure,
        })
    }

    /// The tree that another stands over, and the other's measure.
    pub fn raised(self, alloc: Global) -> Result<(Option<Boxed<Expr>>, Measure), NoMemory>
        ensures tree { IfOk result (λ r. r.0 ≡ kept_of bounded (bounded.tells (above_of self.measure)) self.tree) }
        ensures measure { IfOk result (λ r. r.1 ≡ bounded.tells (above_of self.measure)) }
    {
        let measure = self.measure.above();
        match kept(measure, self.tree) {
            None => Ok((None, measure)),
            Some(tree) => Ok((Some(Boxed::new(alloc, tree)?), measure)),
        }
    }

    /// What an operand's phrase stands for.
    pub fn operand(alloc: Global, operand: Option<Operand>) -> Result<Reading, NoMemory>
        ensures { IfOk result (λ r. r ≡ operand_of bounded operand) }
    {
        match operand {
            None => Ok(Reading::unnamed()),
            Some(operand) => {
                let attribute = Reading::attribute(operand.attr);
                if operand.denied {
                    attribute.denial(alloc)
                } else {
                    Ok(attribute)
                }
            }
        }
    }

    /// An operation between two operands.
    pub fn between(
        alloc: Global,
        kind: OpKind,
        left: Reading,
        right: Reading,
    ) -> Result<Reading, NoMemory>
        ensures { IfOk result (λ r. r ≡ between_of bounded kind left right) }
    {
        let parts = Parts::one(alloc, left)?.with(right)?;
        Ok(parts.operation(kind))
    }
}

fn with_tree(trees: Option<List<Expr>>, tree: Option<Expr>) -> Result<Option<List<Expr>>, NoMemory>
    ensures { IfOk result (λ r. r ≡ with_tree_of trees tree) }
{
    match (trees, tree) {
        (Some(trees), Some(tree)) => {
            let mut trees = trees;
            trees.push(tree)?;
            Ok(Some(trees))
        }
        _ => Ok(None),
    }
}

impl Parts {
    pub fn none(alloc: Global) -> Parts
        ensures { result ≡ no_parts bounded }
    {
        Parts {
            trees: Some(List::new(alloc)),
            measure: Measure::none(),
        }
    }

    pub fn with(self, part: Reading) -> Result<Parts, NoMemory>
        ensures { IfOk result (λ p. p ≡ with_part bounded self part) }
    {
        let measure = self.measure.beside(part.measure);
        Ok(Parts {
            trees: kept(measure, with_tree(self.trees, part.tree)?),
            measure,
        })
    }

    pub fn one(alloc: Global, part: Reading) -> Result<Parts, NoMemory>
        ensures { IfOk result (λ p. p ≡ one_part bounded part) }
    {
        Parts::none(alloc).with(part)
    }

    pub fn all(self) -> Reading
        ensures { result ≡ all_of bounded self }
    {
        let (trees, measure) = self.raised();
        Reading {
            tree: trees.map(|es| Expr::All(es)),
            measure,
        }
    }

    pub fn any(self) -> Reading
        ensures { result ≡ any_of bounded self }
    {
        let (trees, measure) = self.raised();
        Reading {
            tree: trees.map(|es| Expr::Any(es)),
            measure,
        }
    }

    pub fn operation(self, kind: OpKind) -> Reading
        ensures { result ≡ operation_of bounded kind self }
    {
        let (trees, measure) = self.raised();
        Reading {
            tree: trees.map(|es| Expr::Op(kind, es)),
            measure,
        }
    }

    /// The trees that another stands over, and the other's measure.
    pub fn raised(self) -> (Option<List<Expr>>, Measure)
        ensures trees { result.0 ≡ kept_of bounded (bounded.tells (above_of self.measure)) self.trees }
        ensures measure { result.1 ≡ bounded.tells (above_of self.measure) }
    {
        let measure = self.measure.above();
        (kept(measure, self.trees), measure)
    }
}
