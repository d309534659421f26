// Places of texts among others.
ghost use Rattle.std.specs.Prelude.{◌≡◌, ◌+◌, ◌<◌, ◌≤◌, ◌^◌, length, IfOk, OnOk};
ghost use Rattle.std.specs.HashMap.{get_by_text};
ghost use Rattle.opa_words.specs.Phrases.{FindsFirst, FindsAlso};
ghost use Rattle.opa_decl.specs.Names.{place, is_declared, texts};

use crate::items::Name;
use indexmap::IndexMap;
use opa_io::{List, NoMemory, Txt};
use std::alloc::Global;
use std::marker::Model;

/// Texts in declared order, which contracts see as their list. A look-up takes no walk over them.
#[derive(Drop)]
pub struct Places {
    texts: List<Txt>,
    places: IndexMap<String, u32>,
    count: u32,
}

impl Model for Places {
    ghost use Rattle.std.specs.Prelude.{ℕ, List as Seq, ◌≡◌, ◌+◌, ◌<◌, ◌^◌, length};
    ghost use Rattle.std.specs.HashMap.{get_by_text};
    ghost use Rattle.opa_words.specs.Phrases.{FindsFirst};

    ghost Value = { Seq (Seq ℕ) };

    ghost view = { λ p. p.texts };

    ghost invariant = { λ p. (length p.texts + 1 < 2 ^ 32) × (p.count ≡ length p.texts) ×
        FindsFirst (get_by_text p.places) p.texts };
}

impl Places {
    pub fn new(alloc: Global, names: &[Name]) -> Result<Places, NoMemory>
        requires { length names.now + 1 < 2 ^ 32 }
        ensures { IfOk result (λ p. p ≡ texts names.now) }
    {
        let texts = texts_of(alloc, names)?;
        Ok(Places {
            places: places_of(alloc, texts.as_slice())?,
            count: texts.len() as u32,
            texts,
        })
    }

    /// The place of the first text that is this one; behind the last where none is.
    #[tactic(auto, unfolding(crate::specs::Names::place))]
    pub fn place(&self, text: &str) -> u32
        ensures value { result ≡ place self.now text.now }
        ensures small { result + 1 < 2 ^ 32 }
    {
        match self.places.get(text) {
            None => self.count,
            Some(place) => *place,
        }
    }

    /// Whether one of the texts is this one.
    pub fn is_declared(&self, text: &str) -> bool
        ensures { result ≡ is_declared self.now text.now }
    {
        self.place(text) < self.count
    }
}

fn texts_of(alloc: Global, names: &[Name]) -> Result<List<Txt>, NoMemory>
    ensures { IfOk result (λ ts. ts ≡ texts names.now) }
{
    let mut texts = List::new(alloc);
    for name in names {
        texts.push(name.text.copy(alloc)?)?;
    }
    Ok(texts)
}

/// The first place of each text.
fn places_of(alloc: Global, texts: &[Txt]) -> Result<IndexMap<String, u32>, NoMemory>
    requires few { length texts.now < 2 ^ 32 }
    ensures { IfOk result (λ m. FindsFirst (get_by_text m) texts.now) }
{
    let mut places = IndexMap::new(alloc);
    for (place, text) in texts.iter().enumerate() {
        note(alloc, &mut places, text.as_str(), place as u32)?;
    }
    Ok(places)
}

/// Notes the place of a text that has none.
fn note(
    alloc: Global,
    places: &mut IndexMap<String, u32>,
    text: &str,
    place: u32,
) -> Result<(), NoMemory>
    ensures { OnOk result (FindsAlso (get_by_text places.old) text.now place (get_by_text places.new)) }
{
    if !places.contains_key(text) {
        places.insert(String::from_str(alloc, text)?, place)?;
    }
    Ok(())
}
