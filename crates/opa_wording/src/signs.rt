// The signs and the names that stand in a line.
ghost use Rattle.std.specs.Prelude.{◌≡◌};
ghost use Rattle.opa_wording.specs.Signs.{is_infix, op_text, quant_text, window_text, rolling_text};

use opa_tree::{OpKind, Quant, WinKind};

/// Whether an operation is written between its operands.
pub fn is_infix(kind: OpKind) -> bool
    ensures { result ≡ is_infix kind }
{
    match kind {
        OpKind::Add
        | OpKind::Sub
        | OpKind::Mul
        | OpKind::Div
        | OpKind::Eq
        | OpKind::Ne
        | OpKind::Lt
        | OpKind::Le
        | OpKind::Gt
        | OpKind::Ge => true,
        _ => false,
    }
}

/// The sign or the name of an operation.
pub fn op_text(kind: OpKind) -> &'static str
    ensures { result.now ≡ op_text kind }
{
    match kind {
        OpKind::Add => "+",
        OpKind::Sub => "-",
        OpKind::Mul => "*",
        OpKind::Div => "/",
        OpKind::Neg => "-",
        OpKind::Eq => "=",
        OpKind::Ne => "<>",
        OpKind::Lt => "<",
        OpKind::Le => "<=",
        OpKind::Gt => ">",
        OpKind::Ge => ">=",
        OpKind::Round => "Round",
        OpKind::Min => "Minimum",
        OpKind::Max => "Maximum",
        OpKind::AddDays => "AddDays",
        OpKind::AddMonths => "AddMonths",
        OpKind::AddYears => "AddYears",
        OpKind::DaysBetween => "DaysBetween",
        OpKind::YearsBetween => "YearsBetween",
        OpKind::YearOf => "YearOf",
        OpKind::MonthOf => "MonthOf",
        OpKind::DayOf => "DayOf",
        OpKind::Concatenate => "Concatenate",
    }
}

/// The name of a quantifier.
pub fn quant_text(quant: Quant) -> &'static str
    ensures { result.now ≡ quant_text quant }
{
    match quant {
        Quant::ForAll => "ForAll",
        Quant::Exists => "Exists",
        Quant::For => "For",
        Quant::Count => "InstanceCount",
        Quant::CountIf => "InstanceCountIf",
        Quant::Sum => "InstanceSum",
        Quant::SumIf => "InstanceSumIf",
        Quant::Maximum => "InstanceMaximum",
        Quant::Minimum => "InstanceMinimum",
    }
}

/// The name of a function over the days of a window.
pub fn window_text(kind: WinKind) -> &'static str
    ensures { result.now ≡ window_text kind }
{
    match kind {
        WinKind::ValueAt => "ValueAt",
        WinKind::Always => "IntervalAlways",
        WinKind::Sometimes => "IntervalSometimes",
        WinKind::DailySum => "IntervalDailySum",
        WinKind::Maximum => "IntervalMaximum",
        WinKind::Minimum => "IntervalMinimum",
        WinKind::ConsecutiveDays => "IntervalConsecutiveDays",
        WinKind::Before => "TemporalBefore",
        WinKind::OnOrAfter => "TemporalOnOrAfter",
        WinKind::YearsSince => "TemporalYearsSince",
    }
}

/// The name of a function over the last days.
pub fn rolling_text(always: bool) -> &'static str
    ensures { result.now ≡ rolling_text always }
{
    if always {
        "TemporalAlwaysDays"
    } else {
        "TemporalSometimesDays"
    }
}
