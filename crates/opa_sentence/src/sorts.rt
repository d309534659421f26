// What is read, and what it is a part of.
use crate::{Arguments, Function, Parts, Reading};
use opa_tree::OpKind;

/// What is to be read next. The sorts after the first four have read a part already. An argument has its place among the
/// arguments of its call, counted from 0.
#[derive(Debug, Drop)]
pub enum Sort {
    Line,
    Operand,
    Term,
    Factor,
    LineAfter(Reading),
    OperandAfter(Reading),
    TermAfter(Reading),
    Whole(Reading),
    BracketAfter(Reading),
    AllAfter(Parts),
    AnyAfter(Parts),
    Argument(Function, usize, Arguments),
    ArgumentAfter(Function, usize, Arguments),
}

/// What a part that was read belongs to.
#[derive(Debug, Drop)]
pub enum Frame {
    Line,
    Operand,
    Term,
    Compare(OpKind, Reading),
    Join(OpKind, Reading),
    Scale(OpKind, Reading),
    Deny,
    Negate,
    Bracket,
    All(Parts),
    Any(Parts),
    Argument(Function, usize, Arguments),
}
