// Texts that were seen.
ghost use Rattle.std.specs.Prelude.{◌≡◌, [], IfOk};
ghost use Rattle.opa_model.specs.Phrases.{Declares};

use indexmap::IndexSet;
use opa_io::NoMemory;
use std::alloc::Global;
use std::marker::Model;

/// Texts, each once, which contracts see as the list of their bytes.
#[derive(Drop)]
pub struct Seen {
    texts: IndexSet<Vec<u8>>,
}

impl Model for Seen {
    ghost use Rattle.std.specs.Prelude.{ℕ, List};
    ghost use Rattle.opa_model.specs.Sets.{phrases_of};

    ghost Value = { List (List ℕ) };

    ghost view = { λ s. phrases_of s.texts };
}

impl Seen {
    pub fn new(alloc: Global) -> Seen
        ensures { result ≡ [] }
    {
        Seen {
            texts: IndexSet::new(alloc),
        }
    }

    /// Adds a text, and answers whether it wasn't there before.
    pub fn add(&mut self, text: Vec<u8>) -> Result<bool, NoMemory>
        ensures { IfOk result (Declares self.old self.new text.items) }
    {
        Ok(self.texts.insert(text)?)
    }
}
