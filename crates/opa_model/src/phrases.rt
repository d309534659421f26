// Declared phrases, found by their bytes.
ghost use Rattle.std.specs.Prelude.{◌≡◌, ◌↔◌, ◌<◌, Contains, IfSome, IsNone, Some, slice_get, ◌^◌, [], length, position, slice_index_or, IfOk, OnErr};
ghost use Rattle.std.specs.Str.{bytes_eq};
ghost use Rattle.opa_model.specs.Phrases.{Declares};

use indexmap::IndexSet;
use opa_io::NoMemory;
use std::alloc::Global;
use std::marker::Model;

/// Phrases in declared order, which contracts see as the list of their bytes. A look-up takes no walk over them.
#[derive(Drop)]
pub struct PhraseSet {
    set: IndexSet<Vec<u8>>,
}

impl Model for PhraseSet {
    ghost use Rattle.std.specs.Prelude.{ℕ, List};
    ghost use Rattle.opa_model.specs.Sets.{phrases_of};

    ghost Value = { List (List ℕ) };

    ghost view = { λ p. phrases_of p.set };
}

impl PhraseSet {
    pub fn new(alloc: Global) -> PhraseSet
        ensures { result ≡ [] }
    {
        PhraseSet {
            set: IndexSet::new(alloc),
        }
    }

    /// The place of the first phrase that has these bytes.
    pub fn find(&self, phrase: &[u8]) -> Option<usize>
        ensures value { result ≡ position (bytes_eq phrase.now) self.now }
        ensures found { IfSome result (λ n. slice_get self.now n ≡ Some phrase.now) }
        ensures none { IsNone result ↔ ¬ (Contains self.now phrase.now) }
    {
        self.set.get_index_of(phrase)
    }

    /// The phrase at a place, and no bytes where there is none.
    pub fn get(&self, place: usize) -> &[u8]
        ensures { result.now ≡ slice_index_or self.now place [] }
    {
        match self.set.get_index(place) {
            Some(phrase) => phrase.as_slice(),
            None => &[],
        }
    }

    /// How many phrases are declared.
    pub fn len(&self) -> usize
        ensures count { result ≡ length self.now }
        ensures small { result < 2 ^ 63 }
    {
        self.set.len()
    }

    /// Declares a phrase, and answers whether it wasn't declared before.
    pub fn declare(&mut self, phrase: Vec<u8>) -> Result<bool, NoMemory>
        ensures ok { IfOk result (Declares self.old self.new phrase.items) }
        ensures err { OnErr result (self.new ≡ self.old) }
    {
        Ok(self.set.insert(phrase)?)
    }
}
