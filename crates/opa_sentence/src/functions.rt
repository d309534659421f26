// The functions of the grammar, by name, and what they are written over.
ghost use Rattle.std.specs.Prelude.{◌≡◌, ◌<◌, ◌+◌, ◌-◌, ◌==◌, IfSome, if◌then◌else◌};
ghost use Rattle.opa_tree.specs.Trees.{quant_arity, window_arity};
ghost use Rattle.opa_sentence.specs.Functions.{function_named, operation_named, listed_named, window_named, other_named, argument_at, operand_at, line_at};

use opa_tree::{OpKind, Quant, WinKind};

/// What a function's name stands for. `Known` is `CurrentlyKnown`, and `Rolling` is one of the functions over the last days.
#[derive(Clone, Copy, Debug, PartialEq, Eq)]
pub enum Function {
    Op(OpKind),
    Certain,
    Known,
    Over(Quant),
    Window(WinKind),
    Rolling(bool),
}

/// What is written in the place of an argument: a line, a relation's phrase, or a number.
#[derive(Clone, Copy, Debug, PartialEq, Eq)]
pub enum Argument {
    Line,
    Relation,
    Number,
}

/// The function of this name.
pub fn function_named(name: &str) -> Option<Function>
    ensures { result ≡ function_named name.now }
{
    match operation_named(name) {
        Some(kind) => return Some(Function::Op(kind)),
        None => {}
    }
    match listed_named(name) {
        Some(quant) => return Some(Function::Over(quant)),
        None => {}
    }
    match window_named(name) {
        Some(kind) => return Some(Function::Window(kind)),
        None => {}
    }
    other_named(name)
}

fn operation_named(name: &str) -> Option<OpKind>
    ensures { result ≡ operation_named name.now }
{
    match name {
        "Round" => Some(OpKind::Round),
        "Minimum" => Some(OpKind::Min),
        "Maximum" => Some(OpKind::Max),
        "AddDays" => Some(OpKind::AddDays),
        "AddMonths" => Some(OpKind::AddMonths),
        "AddYears" => Some(OpKind::AddYears),
        "DaysBetween" => Some(OpKind::DaysBetween),
        "YearsBetween" => Some(OpKind::YearsBetween),
        "YearOf" => Some(OpKind::YearOf),
        "MonthOf" => Some(OpKind::MonthOf),
        "DayOf" => Some(OpKind::DayOf),
        "Concatenate" => Some(OpKind::Concatenate),
        _ => None,
    }
}

fn listed_named(name: &str) -> Option<Quant>
    ensures { result ≡ listed_named name.now }
{
    match name {
        "ForAll" => Some(Quant::ForAll),
        "Exists" => Some(Quant::Exists),
        "For" => Some(Quant::For),
        "InstanceCount" => Some(Quant::Count),
        "InstanceCountIf" => Some(Quant::CountIf),
        "InstanceSum" => Some(Quant::Sum),
        "InstanceSumIf" => Some(Quant::SumIf),
        "InstanceMaximum" => Some(Quant::Maximum),
        "InstanceMinimum" => Some(Quant::Minimum),
        _ => None,
    }
}

fn window_named(name: &str) -> Option<WinKind>
    ensures { result ≡ window_named name.now }
{
    match name {
        "ValueAt" => Some(WinKind::ValueAt),
        "IntervalAlways" => Some(WinKind::Always),
        "IntervalSometimes" => Some(WinKind::Sometimes),
        "IntervalDailySum" => Some(WinKind::DailySum),
        "IntervalMaximum" => Some(WinKind::Maximum),
        "IntervalMinimum" => Some(WinKind::Minimum),
        "IntervalConsecutiveDays" => Some(WinKind::ConsecutiveDays),
        "TemporalBefore" => Some(WinKind::Before),
        "TemporalOnOrAfter" => Some(WinKind::OnOrAfter),
        "TemporalYearsSince" => Some(WinKind::YearsSince),
        _ => None,
    }
}

fn other_named(name: &str) -> Option<Function>
    ensures { result ≡ other_named name.now }
{
    match name {
        "Certain" => Some(Function::Certain),
        "CurrentlyKnown" => Some(Function::Known),
        "TemporalAlwaysDays" => Some(Function::Rolling(true)),
        "TemporalSometimesDays" => Some(Function::Rolling(false)),
        _ => None,
    }
}

/// What is written in a place, counted from 0, between a function's brackets.
pub fn argument_at(function: Function, place: usize) -> Option<Argument>
    ensures value { result ≡ argument_at function place }
    ensures bound { IfSome result (λ _. place < 4) }
{
    match function {
        Function::Op(kind) => operand_at(kind, place),
        Function::Certain | Function::Known => line_at(1, place),
        Function::Over(quant) => after(Argument::Relation, listed_lines(quant), place),
        Function::Window(kind) => line_at(window_lines(kind), place),
        Function::Rolling(_) => after(Argument::Number, 1, place),
    }
}

fn line_at(count: usize, place: usize) -> Option<Argument>
    ensures value { result ≡ line_at count place }
    ensures bound { IfSome result (λ _. place < count) }
{
    if place < count {
        Some(Argument::Line)
    } else {
        None
    }
}

/// A first argument, and lines after it.
fn after(first: Argument, count: usize, place: usize) -> Option<Argument>
    ensures value { result ≡ (if place == 0 then Some first else line_at count (place - 1)) }
    ensures bound { IfSome result (λ _. place < 1 + count) }
{
    if place == 0 {
        Some(first)
    } else {
        line_at(count, place - 1)
    }
}

fn operand_at(kind: OpKind, place: usize) -> Option<Argument>
    ensures value { result ≡ operand_at kind place }
    ensures bound { IfSome result (λ _. place < 4) }
{
    match kind {
        OpKind::Round => {
            if place == 1 {
                Some(Argument::Number)
            } else {
                line_at(1, place)
            }
        }
        OpKind::Neg | OpKind::YearOf | OpKind::MonthOf | OpKind::DayOf => line_at(1, place),
        _ => line_at(2, place),
    }
}

fn listed_lines(quant: Quant) -> usize
    ensures value { result ≡ quant_arity quant }
    ensures bound { result < 3 }
{
    match quant {
        Quant::Count => 0,
        Quant::SumIf => 2,
        _ => 1,
    }
}

fn window_lines(kind: WinKind) -> usize
    ensures value { result ≡ window_arity kind }
    ensures bound { result < 4 }
{
    match kind {
        WinKind::Before | WinKind::OnOrAfter | WinKind::YearsSince => 1,
        WinKind::ValueAt => 2,
        _ => 3,
    }
}
