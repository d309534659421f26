// An order in which one pass finds all ranks: what a rule mentions comes before its attribute. It decides how long the
// search takes, and nothing else.
ghost use Rattle.std.specs.Prelude.{◌<◌, ◌^◌, length};

use opa_io::{List, NoMemory};
use opa_model::AttrId;
use std::alloc::Global;

/// The attributes, each after those that it reaches, as far as there are no circles.
pub fn order(alloc: Global, uses: &[Option<List<AttrId>>]) -> Result<Vec<u32>, NoMemory>
    requires few { length uses.now < 2 ^ 32 }
{
    let mut walk = Walk {
        seen: Vec::new(alloc),
        order: Vec::new(alloc),
    };
    for _ in uses {
        walk.seen.push(false)?;
    }
    let steps = steps(uses);
    for place in 0..uses.len() as u32 {
        walk.visit(alloc, uses, place, steps)?;
    }
    Ok(walk.order)
}

/// How many steps a walk takes at most: one for each attribute and each mention.
fn steps(uses: &[Option<List<AttrId>>]) -> usize {
    let mut steps = uses.len();
    for used in uses {
        if let Some(mentioned) = used {
            steps = steps.saturating_add(mentioned.len());
        }
    }
    steps.saturating_add(1)
}

#[derive(Drop)]
struct Walk {
    seen: Vec<bool>,
    order: Vec<u32>,
}

/// An attribute on the way, and which of its mentions is next.
#[derive(Drop)]
struct Visit {
    place: u32,
    next: usize,
}

impl Walk {
    /// Whether an attribute is seen for the first time.
    fn is_new(&mut self, place: u32) -> bool {
        match self.seen.get_mut(place as usize) {
            Some(seen) if !*seen => {
                *seen = true;
                true
            }
            _ => false,
        }
    }

    /// Orders an attribute and what it reaches, by a stack of its own.
    fn visit(
        &mut self,
        alloc: Global,
        uses: &[Option<List<AttrId>>],
        place: u32,
        steps: usize,
    ) -> Result<(), NoMemory> {
        if !self.is_new(place) {
            return Ok(());
        }
        let mut stack = Vec::new(alloc);
        stack.push(Visit { place, next: 0 })?;
        for _ in 0..steps {
            let Some(Visit { place, next }) = stack.pop() else {
                return Ok(());
            };
            match mention(uses, place, next) {
                None => self.order.push(place)?,
                Some(attr) => {
                    stack.push(Visit {
                        place,
                        next: next.saturating_add(1),
                    })?;
                    if self.is_new(attr.0) {
                        stack.push(Visit {
                            place: attr.0,
                            next: 0,
                        })?;
                    }
                }
            }
        }
        Ok(())
    }
}

/// A mention of an attribute's rule, by its number.
fn mention(uses: &[Option<List<AttrId>>], place: u32, next: usize) -> Option<AttrId> {
    let mentioned = uses.get(place as usize)?.as_ref()?;
    mentioned.as_slice().get(next).copied()
}
