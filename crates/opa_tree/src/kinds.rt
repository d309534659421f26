// The sorts of operations, quantifiers and windows.

/// An operation on the values of its operands.
#[derive(Clone, Copy, Debug, PartialEq, Eq)]
pub enum OpKind {
    Add,
    Sub,
    Mul,
    Div,
    Neg,
    Eq,
    Ne,
    Lt,
    Le,
    Gt,
    Ge,
    Round,
    Min,
    Max,
    AddDays,
    AddMonths,
    AddYears,
    DaysBetween,
    YearsBetween,
    YearOf,
    MonthOf,
    DayOf,
    Concatenate,
}

/// What is made of the values at the listed instances.
#[derive(Clone, Copy, Debug, PartialEq, Eq)]
pub enum Quant {
    ForAll,
    Exists,
    For,
    Count,
    CountIf,
    Sum,
    SumIf,
    Maximum,
    Minimum,
}

/// What is made of the values at the days of a window.
#[derive(Clone, Copy, Debug, PartialEq, Eq)]
pub enum WinKind {
    ValueAt,
    Always,
    Sometimes,
    DailySum,
    Maximum,
    Minimum,
    ConsecutiveDays,
    Before,
    OnOrAfter,
    YearsSince,
}
