// Level-1 lines of `global` and `entity` blocks.
ghost use Rattle.std.specs.Prelude.{◌≡◌, IfOk};
ghost use Rattle.std.specs.Option.{option_map};
ghost use Rattle.std.specs.List.{All};
ghost use Rattle.opa_words.specs.Places.{IsWithin};
ghost use Rattle.opa_decl.specs.declared.items.Sort.TheVariants as sorts;
ghost use Rattle.opa_decl.specs.declared.items.Item.TheVariants.{Relation};
ghost use Rattle.opa_decl.specs.Pieces.{phrase};
ghost use Rattle.opa_decl.specs.Lines.{attribute, bool_attribute, number_attribute, bool_line, number_line, reference_line, every_line, member_of, member};

use crate::items::{AttributeLine, Item, Name, Place, Sort};
use crate::lines::{bool_line, every_line, number_line, reference_line};
use crate::pieces::{has_text, phrase};
use opa_io::{NoMemory, Txt, front};
use opa_words::Token;
use std::alloc::Global;

fn attribute(place: Place, of_global: bool, sort: Sort, text: Txt) -> Item
    ensures { result ≡ attribute place of_global sort text }
{
    Item::Attribute(AttributeLine {
        of_global,
        phrase: Name { place, text },
        sort,
    })
}

fn bool_member(
    alloc: Global,
    text: &str,
    place: Place,
    of_global: bool,
    tokens: &[Token],
) -> Result<Option<Item>, NoMemory>
    requires { All (IsWithin text.now) tokens.now }
    ensures { IfOk result (λ o. o ≡ option_map (bool_attribute place of_global) (bool_line text.now tokens.now)) }
{
    match bool_line(alloc, text, tokens)? {
        None => Ok(None),
        Some((name, said)) => Ok(Some(attribute(place, of_global, Sort::Bool(said), name))),
    }
}

fn number_member(
    alloc: Global,
    text: &str,
    place: Place,
    of_global: bool,
    tokens: &[Token],
) -> Result<Option<Item>, NoMemory>
    requires { All (IsWithin text.now) tokens.now }
    ensures { IfOk result (λ o. o ≡ option_map (number_attribute place of_global sorts.Number) (number_line text.now 4 tokens.now)) }
{
    match number_line(alloc, text, 4, tokens)? {
        None => Ok(None),
        Some((name, bounds)) => {
            Ok(Some(attribute(place, of_global, Sort::Number(bounds), name)))
        }
    }
}

fn currency_member(
    alloc: Global,
    text: &str,
    place: Place,
    of_global: bool,
    tokens: &[Token],
) -> Result<Option<Item>, NoMemory>
    requires { All (IsWithin text.now) tokens.now }
    ensures { IfOk result (λ o. o ≡ option_map (number_attribute place of_global sorts.Currency) (number_line text.now 2 tokens.now)) }
{
    match number_line(alloc, text, 2, tokens)? {
        None => Ok(None),
        Some((name, bounds)) => {
            Ok(Some(attribute(place, of_global, Sort::Currency(bounds), name)))
        }
    }
}

fn plain_member(
    alloc: Global,
    text: &str,
    place: Place,
    of_global: bool,
    sort: Sort,
    tokens: &[Token],
) -> Result<Option<Item>, NoMemory>
    requires { All (IsWithin text.now) tokens.now }
    ensures { IfOk result (λ o. o ≡ option_map (attribute place of_global sort) (phrase text.now tokens.now)) }
{
    match phrase(alloc, text, tokens)? {
        None => Ok(None),
        Some(name) => Ok(Some(attribute(place, of_global, sort, name))),
    }
}

fn reference_member(
    alloc: Global,
    text: &str,
    place: Place,
    of_global: bool,
    tokens: &[Token],
) -> Result<Option<Item>, NoMemory>
    requires { All (IsWithin text.now) tokens.now }
    ensures { IfOk result (λ o. o ≡ option_map Relation (reference_line text.now place of_global tokens.now)) }
{
    match reference_line(alloc, text, place, of_global, tokens)? {
        None => Ok(None),
        Some(relation) => Ok(Some(Item::Relation(relation))),
    }
}

fn every_member(
    alloc: Global,
    text: &str,
    place: Place,
    of_global: bool,
    tokens: &[Token],
) -> Result<Option<Item>, NoMemory>
    requires { All (IsWithin text.now) tokens.now }
    ensures { IfOk result (λ o. o ≡ option_map Relation (every_line text.now place of_global tokens.now)) }
{
    match every_line(alloc, text, place, of_global, tokens)? {
        None => Ok(None),
        Some(relation) => Ok(Some(Item::Relation(relation))),
    }
}

/// A level-1 line behind this first token.
fn member_of(
    alloc: Global,
    text: &str,
    place: Place,
    of_global: bool,
    first: Token,
    tokens: &[Token],
) -> Result<Option<Item>, NoMemory>
    requires first { IsWithin text.now first }
    requires within { All (IsWithin text.now) tokens.now }
    ensures { IfOk result (λ o. o ≡ member_of text.now place of_global first tokens.now) }
{
    if has_text(text, "bool", first) {
        return bool_member(alloc, text, place, of_global, tokens);
    }
    if has_text(text, "number", first) {
        return number_member(alloc, text, place, of_global, tokens);
    }
    if has_text(text, "currency", first) {
        return currency_member(alloc, text, place, of_global, tokens);
    }
    if has_text(text, "text", first) {
        return plain_member(alloc, text, place, of_global, Sort::Words, tokens);
    }
    if has_text(text, "date", first) {
        return plain_member(alloc, text, place, of_global, Sort::Date, tokens);
    }
    if has_text(text, "reference", first) {
        return reference_member(alloc, text, place, of_global, tokens);
    }
    if has_text(text, "every", first) {
        return every_member(alloc, text, place, of_global, tokens);
    }
    Ok(None)
}

/// A level-1 line of `global` or `entity`, but for `in PARENT: PHRASE`.
#[tactic(auto, unfolding(crate::specs::Lines::member))]
pub fn member(
    alloc: Global,
    text: &str,
    place: Place,
    of_global: bool,
    tokens: &[Token],
) -> Result<Option<Item>, NoMemory>
    requires { All (IsWithin text.now) tokens.now }
    ensures { IfOk result (λ o. o ≡ member text.now place of_global tokens.now) }
{
    match front(tokens) {
        None => Ok(None),
        Some((first, rest)) => member_of(alloc, text, place, of_global, *first, rest),
    }
}
