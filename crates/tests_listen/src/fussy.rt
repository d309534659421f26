// A listener of a caller's own.
use opa_io::NoMemory;
use opa_listen::{Change, Listener, words};
use opa_model::AttrId;
use std::alloc::Global;

/// It watches all attributes, and answers want of memory when it is asked for room for the so manieth time.
#[derive(Drop)]
pub struct Fussy {
    kept: Vec<Change>,
    asked: u32,
    refuses: u32,
    style: u32,
}

impl Fussy {
    pub fn new(alloc: Global, refuses: u32, style: u32) -> Fussy {
        Fussy {
            kept: Vec::new(alloc),
            asked: 0,
            refuses,
            style,
        }
    }
}

impl Listener for Fussy {
    ghost use Rattle.std.specs.Prelude.{[], ◌-◌, vec_len, vec_capacity};

    ghost state = { λ s. record {
      watched = [];
      kept = s.kept.items;
      spare = vec_capacity s.kept - vec_len s.kept;
      style = s.style;
    } };

    fn wants(&self, _attr: AttrId) -> bool {
        true
    }

    fn ready(&mut self, n: u32) -> Result<(), NoMemory> {
        self.asked = self.asked.saturating_add(1);
        if self.asked == self.refuses {
            return Err(NoMemory);
        }
        self.kept.reserve(n as usize)?;
        Ok(())
    }

    fn note(&mut self, change: Change) {
        let _ = self.kept.push(change);
    }

    fn closing(&self, alloc: Global, out: &mut Vec<u8>) -> Result<(), NoMemory> {
        let said = words(alloc, self.style, &self.kept)?;
        out.extend_from_slice(said.as_str().as_bytes())?;
        Ok(())
    }
}
