// A listener that watches some attributes.
ghost use Rattle.std.specs.Prelude.{◌≡◌, ◌≢◌, [], ◌==◌, Bool, length, IfOk, true, false};
ghost use Rattle.std.specs.List.{list_any};
ghost use Rattle.opa_model.specs.declared.ids.AttrId.{AttrId as AttrView};

use crate::saying::{add_text, words};
use crate::{Change, Listener};
use opa_io::{List, NoMemory};
use opa_model::AttrId;
use std::alloc::Global;

/// It watches some attributes, and says at the end how many changes there were, and the last of them.
#[derive(Debug, Drop)]
pub struct Watch {
    attrs: List<AttrId>,
    kept: Vec<Change>,
    ghost some: { attrs ≢ [] },
}

impl Watch {
    /// It keeps nothing yet.
    pub fn new(alloc: Global, attrs: List<AttrId>) -> Watch
        requires { attrs ≢ [] }
        ensures watched { (⟦<Watch as Listener>⟧.state result).watched ≡ attrs }
        ensures kept { (⟦<Watch as Listener>⟧.state result).kept ≡ [] }
        ensures style { (⟦<Watch as Listener>⟧.state result).style ≡ 1 }
    {
        Watch {
            attrs,
            kept: Vec::new(alloc),
        }
    }
}

/// Whether an attribute is one of these.
fn is_among(attrs: &[AttrId], attr: AttrId) -> bool
    ensures { result ≡ list_any (λ (b : AttrView). b.0 == attr.0) attrs.now }
{
    attrs.iter().any(|other| other.0 == attr.0)
}

impl Listener for Watch {
    ghost use Rattle.std.specs.Prelude.{◌-◌, vec_len, vec_capacity};

    ghost state = { λ s. record { watched = s.attrs; kept = s.kept.items; spare = vec_capacity s.kept - vec_len s.kept; style = 1 } };

    fn wants(&self, attr: AttrId) -> bool {
        is_among(self.attrs.as_slice(), attr)
    }

    fn ready(&mut self, n: u32) -> Result<(), NoMemory> {
        self.kept.reserve(n as usize)?;
        Ok(())
    }

    fn note(&mut self, change: Change) {
        let _ = self.kept.push(change);
    }

    fn closing(&self, alloc: Global, out: &mut Vec<u8>) -> Result<(), NoMemory> {
        let words = words(alloc, 1, &self.kept)?;
        add_text(out, &words)
    }
}
