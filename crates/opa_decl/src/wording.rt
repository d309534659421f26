// The texts by which rules know attributes and relations.
ghost use Rattle.std.specs.Prelude.{◌≡◌, ◌++◌, ◌∷◌, [], flat_map, slice_get, None, Some, MatchOption, IfOk, OnOk};
ghost use Rattle.opa_verbs.specs.Forms.{beside as beside_of};
ghost use Rattle.opa_decl.specs.Names.{denied as denied_of, negative, place as place_in, forms as forms_of};

use crate::items::{Item, Name, Place, Said, Sort};
use crate::places::Places;
use opa_io::{List, NoMemory, Txt, front};
use opa_model::Verb;
use std::alloc::Global;

/// Two texts, with a space between them where neither is empty.
fn beside(alloc: Global, left: &str, right: &str) -> Result<Txt, NoMemory>
    ensures { IfOk result (λ text. text ≡ beside_of left.now right.now) }
{
    if left.is_empty() {
        return Txt::from_str(alloc, right);
    }
    if right.is_empty() {
        return Txt::from_str(alloc, left);
    }
    let text = format!(in alloc; "{left} {right}")?;
    Ok(Txt::from_string(text))
}

/// SUBJECT NEG REST.
fn denied(alloc: Global, verb: &Verb, said: &Said) -> Result<Txt, NoMemory>
    ensures { IfOk result (λ text. text ≡ beside_of said.now.subject (beside_of verb.now.negative said.now.rest)) }
{
    let after = beside(alloc, verb.negative.as_str(), said.rest.as_str())?;
    beside(alloc, said.subject.as_str(), after.as_str())
}

/// The verb whose POS stands there.
fn verb_named<'v>(verb_names: &Places, verbs: &'v [Verb], said: &Said) -> Option<&'v Verb>
    ensures { MatchOption result (slice_get verbs.now (place_in verb_names.now said.now.positive) ≡ None) (λ v. slice_get verbs.now (place_in verb_names.now said.now.positive) ≡ Some v.now) }
{
    verb_at(verbs, verb_names.place(said.positive.as_str()))
}

fn verb_at(verbs: &[Verb], place: u32) -> Option<&Verb>
    ensures { MatchOption result (slice_get verbs.now place ≡ None) (λ v. slice_get verbs.now place ≡ Some v.now) }
{
    verbs.get(place as usize)
}

fn add_denied(
    alloc: Global,
    verb_names: &Places,
    verbs: &[Verb],
    place: Place,
    said: &Said,
    names: &mut List<Name>,
) -> Result<(), NoMemory>
    ensures { OnOk result (names.new ≡ names.old ++ denied_of verb_names.now place said.now (slice_get verbs.now (place_in verb_names.now said.now.positive))) }
{
    match verb_named(verb_names, verbs, said) {
        None => Ok(()),
        Some(verb) => names.push(Name {
            place,
            text: denied(alloc, verb, said)?,
        }),
    }
}

fn add_negative(
    alloc: Global,
    verb_names: &Places,
    verbs: &[Verb],
    place: Place,
    sort: &Sort,
    names: &mut List<Name>,
) -> Result<(), NoMemory>
    ensures { OnOk result (names.new ≡ names.old ++ negative verb_names.now verbs.now place sort.now) }
{
    match sort {
        Sort::Bool(said) => add_denied(alloc, verb_names, verbs, place, said, names),
        Sort::Number(_) => Ok(()),
        Sort::Currency(_) => Ok(()),
        Sort::Words => Ok(()),
        Sort::Date => Ok(()),
    }
}

fn add_copy(alloc: Global, name: &Name, names: &mut List<Name>) -> Result<(), NoMemory>
    ensures { OnOk result (names.new ≡ names.old ++ name.now ∷ []) }
{
    names.push(Name {
        place: name.place,
        text: name.text.copy(alloc)?,
    })
}

fn add_forms(
    alloc: Global,
    verb_names: &Places,
    verbs: &[Verb],
    item: &Item,
    names: &mut List<Name>,
) -> Result<(), NoMemory>
    ensures { OnOk result (names.new ≡ names.old ++ forms_of verb_names.now verbs.now item.now) }
{
    match item {
        Item::Verb(_) => Ok(()),
        Item::Entity(entity) => add_copy(alloc, &entity.inside, names),
        Item::Attribute(line) => {
            add_copy(alloc, &line.phrase, names)?;
            add_negative(
                alloc,
                verb_names,
                verbs,
                line.phrase.place,
                &line.sort,
                names,
            )
        }
        Item::Relation(line) => add_copy(alloc, &line.phrase, names),
        Item::Goal(_) => Ok(()),
        Item::Screen(_) => Ok(()),
        Item::File(_) => Ok(()),
    }
}

/// The phrases of attributes and relations, and the negative forms.
pub fn forms(
    alloc: Global,
    verb_names: &Places,
    verbs: &[Verb],
    items: &[Item],
) -> Result<List<Name>, NoMemory>
    ensures { IfOk result (λ names. names ≡ flat_map (forms_of verb_names.now verbs.now) items.now) }
{
    let mut names = List::new(alloc);
    let mut rest = items;
    while let Some((item, later)) = front(rest) {
        add_forms(alloc, verb_names, verbs, item, &mut names)?;
        rest = later;
    }
    Ok(names)
}
