// Whether two declared things are equal.
ghost use Rattle.std.specs.Prelude.{◌≡◌, IsTrue};

use opa_io::{Same, front};
use opa_model::{Attribute, Entity, Item, Relation, Screen, Sentence, Verb};

pub(crate) fn same_verb(a: &Verb, b: &Verb) -> bool
    ensures { IsTrue result → a.now ≡ b.now }
{
    a.positive.same(&b.positive)
        && a.negative.same(&b.negative)
        && a.ask.same(&b.ask)
        && a.rest.same(&b.rest)
}

pub(crate) fn same_entity(a: &Entity, b: &Entity) -> bool
    ensures { IsTrue result → a.now ≡ b.now }
{
    a.phrase.same(&b.phrase) && a.parent == b.parent && a.contained == b.contained
}

fn same_sentence(a: &Sentence, b: &Sentence) -> bool
    ensures { IsTrue result → a.now ≡ b.now }
{
    a.subject.same(&b.subject) && a.verb == b.verb && a.rest.same(&b.rest)
}

fn same_sentences(a: &Option<Sentence>, b: &Option<Sentence>) -> bool
    ensures { IsTrue result → a.now ≡ b.now }
{
    match (a, b) {
        (None, None) => true,
        (Some(a), Some(b)) => same_sentence(a, b),
        _ => false,
    }
}

/// Whether answers are bounded by the same.
fn same_limits(a: &Attribute, b: &Attribute) -> bool
    ensures least { IsTrue result → a.now.least ≡ b.now.least }
    ensures most { IsTrue result → a.now.most ≡ b.now.most }
    ensures decimals { IsTrue result → a.now.decimals ≡ b.now.decimals }
{
    a.least == b.least && a.most == b.most && a.decimals == b.decimals
}

pub(crate) fn same_attribute(a: &Attribute, b: &Attribute) -> bool
    ensures { IsTrue result → a.now ≡ b.now }
{
    a.entity == b.entity
        && a.kind == b.kind
        && a.phrase.same(&b.phrase)
        && same_sentences(&a.sentence, &b.sentence)
        && same_limits(a, b)
}

pub(crate) fn same_relation(a: &Relation, b: &Relation) -> bool
    ensures { IsTrue result → a.now ≡ b.now }
{
    a.phrase.same(&b.phrase)
        && a.source == b.source
        && a.target == b.target
        && a.contains == b.contains
        && a.one == b.one
        && a.every == b.every
}

fn same_item(a: &Item, b: &Item) -> bool
    ensures { IsTrue result → a.now ≡ b.now }
{
    match (a, b) {
        (Item::Attr(a), Item::Attr(b)) => *a == *b,
        (Item::Members(a), Item::Members(b)) => *a == *b,
        _ => false,
    }
}

fn same_items(items: &[Item], others: &[Item]) -> bool
    ensures { IsTrue result → items.now ≡ others.now }
{
    let mut rest = items;
    let mut more = others;
    while let Some((item, later)) = front(rest) {
        let Some((other, further)) = front(more) else {
            return false;
        };
        if !same_item(item, other) {
            return false;
        }
        rest = later;
        more = further;
    }
    more.is_empty()
}

pub(crate) fn same_screen(a: &Screen, b: &Screen) -> bool
    ensures { IsTrue result → a.now ≡ b.now }
{
    a.title.same(&b.title) && same_items(a.items.as_slice(), b.items.as_slice())
}
