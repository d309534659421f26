// Signs of a line that can't be where they are.
ghost use Rattle.std.specs.Prelude.{◌≡◌, IfSome};
ghost use Rattle.std.specs.List.{All};
ghost use Rattle.opa_words.specs.Places.{IsWithin};
ghost use Rattle.opa_sentence.specs.Cursors.{seen};
ghost use Rattle.opa_rules.specs.Faults.Marks.{IsMark};
ghost use Rattle.opa_rules.specs.Faults.Signs.{is_other as is_other_of, is_of_values as is_of_values_of, is_declaration as is_declaration_of, is_strange as is_strange_of, asks as asks_of, begins_none as begins_none_of, lacks_value as lacks_value_of, is_equals as is_equals_of, is_first as is_first_of, is_over as is_over_of, opens_cases as opens_cases_of, is_lacking as is_lacking_of, sign_slip as sign_slip_of, wrong_sign as wrong_sign_of};

use crate::faults::brackets::found;
use crate::faults::slip::{Part, Slip};
use opa_io::front;
use opa_sentence::{Class, Cursor};
use opa_tree::OpKind;
use opa_words::{Token, is_ending};

fn is_other(class: Class) -> bool
    ensures { result ≡ is_other_of class }
{
    matches!(class, Class::Other)
}

fn is_of_values(class: Class) -> bool
    ensures { result ≡ is_of_values_of class }
{
    matches!(
        class,
        Class::Open | Class::Close | Class::Plus | Class::Times | Class::Compare(_)
    )
}

pub(crate) fn is_declaration(part: Part) -> bool
    ensures { result ≡ is_declaration_of part }
{
    matches!(part, Part::Declaration)
}

/// Whether no line of such a part has the sign.
fn is_strange(part: Part, class: Class, text: &str) -> bool
    ensures { result ≡ is_strange_of part (record { class = class; text = text.now }) }
{
    if is_declaration(part) {
        is_of_values(class) || text == ";"
    } else {
        is_other(class)
    }
}

/// Whether the sign asks for a value behind it.
fn asks(class: Class) -> bool
    ensures { result ≡ asks_of class }
{
    matches!(
        class,
        Class::Open
            | Class::Comma
            | Class::Plus
            | Class::Minus
            | Class::Times
            | Class::Slash
            | Class::Compare(_)
    )
}

/// Whether no value begins with the sign.
fn begins_none(class: Class) -> bool
    ensures { result ≡ begins_none_of class }
{
    matches!(
        class,
        Class::Close | Class::Comma | Class::Plus | Class::Times | Class::Slash | Class::Compare(_)
    )
}

fn is_over(words: Cursor<'_>) -> bool
    ensures { result ≡ is_over_of (seen words.entry) }
{
    words.first().is_none()
}

/// Whether no value begins here: the line ends, but for its last word, or another sign follows.
fn lacks_value(words: Cursor<'_>) -> bool
    ensures { result ≡ lacks_value_of (seen words.entry) }
{
    match words.first() {
        None => true,
        Some((class, text, rest)) => begins_none(class) || (is_over(rest) && is_ending(text)),
    }
}

pub(crate) fn is_equals(class: Class) -> bool
    ensures { result ≡ is_equals_of class }
{
    matches!(class, Class::Compare(OpKind::Eq))
}

pub(crate) fn is_first(part: Part) -> bool
    ensures { result ≡ is_first_of part }
{
    matches!(part, Part::First)
}

/// Whether the sign is at the end of a first line, with cases in the lines below.
fn opens_cases(part: Part, class: Class, rest: Cursor<'_>) -> bool
    ensures { result ≡ opens_cases_of part class (seen rest.entry) }
{
    is_first(part) && is_equals(class) && is_over(rest)
}

/// Whether something is missing behind a sign.
fn is_lacking(part: Part, class: Class, rest: Cursor<'_>) -> bool
    ensures { result ≡ is_lacking_of part class (seen rest.entry) }
{
    if is_declaration(part) || !asks(class) {
        false
    } else {
        lacks_value(rest) && !opens_cases(part, class, rest)
    }
}

/// What is wrong with the first token, by itself and by what follows it.
fn sign_slip(part: Part, words: Cursor<'_>) -> Option<Slip>
    ensures { result ≡ sign_slip_of part (seen words.entry) }
{
    match words.first() {
        None => None,
        Some((class, text, rest)) => {
            if is_strange(part, class, text) {
                Some(Slip::Sign)
            } else if is_lacking(part, class, rest) {
                Some(Slip::Missing)
            } else {
                None
            }
        }
    }
}

/// The first token of a text with which something is wrong.
pub(crate) fn wrong_sign(part: Part, text: &str, tokens: &[Token]) -> Option<(Slip, u32)>
    requires { All (IsWithin text.now) tokens.now }
    ensures at { result ≡ wrong_sign_of part text.now tokens.now }
    ensures within { IfSome result (IsMark text.now) }
{
    let mut rest = tokens;
    while let Some((_, later)) = front(rest) {
        match sign_slip(part, Cursor::new(text, rest)) {
            Some(slip) => return found(text, slip, rest),
            None => rest = later,
        }
    }
    None
}
