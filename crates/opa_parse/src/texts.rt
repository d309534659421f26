// Texts that are taken.
ghost use Rattle.std.specs.Prelude.{◌≡◌, [], IfOk, OnErr};
ghost use Rattle.opa_model.specs.Phrases.{Declares};

use indexmap::IndexSet;
use opa_io::NoMemory;
use std::alloc::Global;
use std::marker::Model;

/// Texts, each once, which contracts see as the list of their bytes. A look-up takes no walk over them.
#[derive(Drop)]
pub struct Texts {
    set: IndexSet<Vec<u8>>,
}

impl Model for Texts {
    ghost use Rattle.std.specs.Prelude.{ℕ, List};
    ghost use Rattle.opa_model.specs.Sets.{phrases_of};

    ghost Value = { List (List ℕ) };

    ghost view = { λ p. phrases_of p.set };
}

impl Texts {
    pub fn new(alloc: Global) -> Texts
        ensures { result ≡ [] }
    {
        Texts {
            set: IndexSet::new(alloc),
        }
    }

    /// Takes a text, and answers whether it wasn't taken before.
    fn put(&mut self, text: Vec<u8>) -> Result<bool, NoMemory>
        ensures ok { IfOk result (Declares self.old self.new text.items) }
        ensures err { OnErr result (self.new ≡ self.old) }
    {
        Ok(self.set.insert(text)?)
    }

    /// Takes a text, and answers whether it wasn't taken before.
    pub fn add(&mut self, alloc: Global, text: &str) -> Result<bool, NoMemory>
        ensures { IfOk result (Declares self.old self.new text.now) }
    {
        self.put(text.as_bytes().to_vec(alloc)?)
    }
}
