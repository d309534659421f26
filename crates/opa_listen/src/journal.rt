// A listener that keeps all changes.
ghost use Rattle.std.specs.Prelude.{◌≡◌, []};

use crate::saying::{add_text, words};
use crate::{Change, Listener};
use opa_io::NoMemory;
use opa_model::AttrId;
use std::alloc::Global;

/// It watches all attributes, and says each change at the end.
#[derive(Debug, Drop)]
pub struct Journal {
    kept: Vec<Change>,
}

impl Journal {
    /// It keeps nothing yet.
    pub fn new(alloc: Global) -> Journal
        ensures watched { (⟦<Journal as Listener>⟧.state result).watched ≡ [] }
        ensures kept { (⟦<Journal as Listener>⟧.state result).kept ≡ [] }
        ensures style { (⟦<Journal as Listener>⟧.state result).style ≡ 0 }
    {
        Journal {
            kept: Vec::new(alloc),
        }
    }
}

impl Listener for Journal {
    ghost use Rattle.std.specs.Prelude.{[], ◌-◌, vec_len, vec_capacity};

    ghost state = { λ s. record {
      watched = [];
      kept = s.kept.items;
      spare = vec_capacity s.kept - vec_len s.kept;
      style = 0;
    } };

    fn wants(&self, _attr: AttrId) -> bool {
        true
    }

    fn ready(&mut self, n: u32) -> Result<(), NoMemory> {
        self.kept.reserve(n as usize)?;
        Ok(())
    }

    fn note(&mut self, change: Change) {
        let _ = self.kept.push(change);
    }

    fn closing(&self, alloc: Global, out: &mut Vec<u8>) -> Result<(), NoMemory> {
        let words = words(alloc, 0, &self.kept)?;
        add_text(out, &words)
    }
}
