// What can be found.
use opa_model::{AttrId, RelId};
use opa_tree::OpKind;

/// How many findings are printed at most.
pub const MOST_FINDINGS: usize = 100;

/// Phrases of so many things at most are compared, each with every other one.
pub const MOST_COMPARED: u32 = 1_000;

/// A row of the table of a rule that is never reached, because of an earlier row, which is always true or has the same
/// condition, with another value or not. Rows are counted from 1.
#[derive(Clone, Copy, Debug, PartialEq, Eq)]
pub struct UnreachedRow {
    pub attr: AttrId,
    pub file: u32,
    pub line: u32,
    pub row: usize,
    pub earlier: usize,
    pub always: bool,
    pub differs: bool,
}

/// Two attributes whose phrases differ by one letter, or only in case.
#[derive(Clone, Copy, Debug, PartialEq, Eq)]
pub struct AlikeAttributes {
    pub first: AttrId,
    pub second: AttrId,
}

/// Two lists whose phrases differ by one letter, or only in case.
#[derive(Clone, Copy, Debug, PartialEq, Eq)]
pub struct AlikeLists {
    pub first: RelId,
    pub second: RelId,
}

/// A currency that isn't a goal, whose rule multiplies or divides, and that the rule of another currency mentions.
#[derive(Clone, Copy, Debug, PartialEq, Eq)]
pub struct RoundedCurrency {
    pub attr: AttrId,
    pub file: u32,
    pub line: u32,
}

/// A rule with rows whose last value is the literal `uncertain`.
#[derive(Clone, Copy, Debug, PartialEq, Eq)]
pub struct UncertainEnding {
    pub attr: AttrId,
    pub file: u32,
    pub line: u32,
}

/// An attribute that no goal looks at. It stands where its rule does; one without a rule has line 0 of the main file.
#[derive(Clone, Copy, Debug, PartialEq, Eq)]
pub struct UnusedAttribute {
    pub attr: AttrId,
    pub file: u32,
    pub line: u32,
}

/// A goal whose value no answer can change. It stands where its rule does.
#[derive(Clone, Copy, Debug, PartialEq, Eq)]
pub struct SettledGoal {
    pub attr: AttrId,
    pub file: u32,
    pub line: u32,
}

/// A side of a comparison: a count of ten-thousandths, or an attribute.
#[derive(Clone, Copy, Debug, PartialEq, Eq)]
pub enum Operand {
    Number(i64),
    Attr(AttrId),
}

/// A comparison as it stands in a rule.
#[derive(Clone, Copy, Debug, PartialEq, Eq)]
pub struct Comparison {
    pub operation: OpKind,
    pub left: Operand,
    pub right: Operand,
}

/// What holds of a comparison in every case. Its sides are never equal if one is a number with more decimals than the other,
/// an attribute, can have.
#[derive(Clone, Copy, Debug, PartialEq, Eq)]
pub enum Verdict {
    NeverTrue,
    NeverFalse,
    NeverEqual,
}

/// A comparison in the rule for an attribute, and what holds of it in every case.
#[derive(Clone, Copy, Debug, PartialEq, Eq)]
pub struct Compared {
    pub attr: AttrId,
    pub file: u32,
    pub line: u32,
    pub comparison: Comparison,
    pub verdict: Verdict,
}

/// What is worth a look.
#[derive(Clone, Copy, Debug, PartialEq, Eq)]
pub enum Finding {
    Row(UnreachedRow),
    Compared(Compared),
    Unused(UnusedAttribute),
    Settled(SettledGoal),
    Attributes(AlikeAttributes),
    Lists(AlikeLists),
    Rounding(RoundedCurrency),
    Ending(UncertainEnding),
}

/// Whether what is said is so in every case, or is only worth a look.
#[derive(Clone, Copy, Debug, PartialEq, Eq)]
pub enum Level {
    Warning,
    Note,
}
