// Condition cells.
ghost use Rattle.std.specs.Prelude.{◌≡◌, IfOk};
ghost use Rattle.std.specs.Option.{option_map};
ghost use Rattle.opa_sentence.specs.Cursors.{seen};
ghost use Rattle.opa_parse.specs.declared.tables.cells.Test.TheVariants as test;
ghost use Rattle.opa_parse.specs.Tables.Cells.{Says, is_literal_class as is_literal_class_of, is_minus as is_minus_of, is_number as is_number_of, are_literal as are_literal_of, sign_of as sign_of_class, IsLiteral, SpellsTest, IsConditionCell};
ghost use Rattle.opa_parse.specs.Tables.Tables.{Each};

use crate::tables::Test;
use crate::tables::heads::operand_of;
use crate::tables::words::{is_none_left, words_of};
use opa_io::{List, NoMemory, front};
use opa_sentence::{Class, Cursor, Names, Reading};
use opa_tree::OpKind;
use std::alloc::Global;

fn is_literal_class(class: Class) -> bool
    ensures { result ≡ is_literal_class_of class }
{
    match class {
        Class::Number | Class::Date | Class::Text | Class::True | Class::False | Class::Uncertain =>
            true,
        _ => false,
    }
}

fn is_minus(class: Class) -> bool
    ensures { result ≡ is_minus_of class }
{
    match class {
        Class::Minus => true,
        _ => false,
    }
}

fn is_number(class: Class) -> bool
    ensures { result ≡ is_number_of class }
{
    match class {
        Class::Number => true,
        _ => false,
    }
}

/// Whether words are one literal, or a minus and a Number.
fn are_literal(words: Cursor<'_>) -> bool
    ensures { result ≡ are_literal_of (seen words.entry) }
{
    match words.first() {
        None => false,
        Some((first, _, rest)) => match rest.first() {
            None => is_literal_class(first),
            Some((second, _, left)) => {
                is_minus(first) && is_number(second) && is_none_left(left)
            }
        },
    }
}

fn literal_of(alloc: Global, names: &Names, words: Cursor<'_>) -> Result<Option<Reading>, NoMemory>
    ensures { IfOk result (Says (IsLiteral names.now (seen words.entry))) }
{
    if are_literal(words) {
        let literal = operand_of(alloc, names, words)?;
        Ok(literal)
    } else {
        Ok(None)
    }
}

/// The comparison that a sign stands for.
fn sign_of(class: Class) -> Option<OpKind>
    ensures { result ≡ sign_of_class class }
{
    match class {
        Class::Compare(kind) => Some(kind),
        _ => None,
    }
}

fn compared(kind: OpKind, literal: Option<Reading>) -> Option<Test>
    ensures { result ≡ option_map (λ x. test.Compares kind x) literal }
{
    match literal {
        None => None,
        Some(literal) => Some(Test::Compares(kind, literal)),
    }
}

/// The comparison that words ask for.
fn test_of(alloc: Global, names: &Names, words: Cursor<'_>) -> Result<Option<Test>, NoMemory>
    ensures { IfOk result (Says (SpellsTest names.now (seen words.entry))) }
{
    match words.first() {
        None => Ok(None),
        Some((class, _, rest)) => match sign_of(class) {
            None => Ok(compared(OpKind::Eq, literal_of(alloc, names, words)?)),
            Some(kind) => Ok(compared(kind, literal_of(alloc, names, rest)?)),
        },
    }
}

/// What a cell asks for.
fn condition_cell(alloc: Global, names: &Names, cell: &[u8]) -> Result<Option<Test>, NoMemory>
    ensures { IfOk result (Says (IsConditionCell names.now cell.now)) }
{
    if cell.is_empty() {
        return Ok(Some(Test::Nothing));
    }
    match words_of(alloc, cell)? {
        None => Ok(None),
        Some(words) => {
            let test = test_of(alloc, names, words.cursor())?;
            Ok(test)
        }
    }
}

/// What the condition cells of a record ask for.
pub fn tests_of(
    alloc: Global,
    names: &Names,
    cells: &[List<u8>],
) -> Result<Option<List<Test>>, NoMemory>
    ensures { IfOk result (Says (Each (IsConditionCell names.now) cells.now)) }
{
    let mut tests = List::new(alloc);
    let mut rest = cells;
    while let Some((cell, later)) = front(rest) {
        match condition_cell(alloc, names, cell.as_slice())? {
            None => return Ok(None),
            Some(test) => {
                tests.push(test)?;
                rest = later;
            }
        }
    }
    Ok(Some(tests))
}
