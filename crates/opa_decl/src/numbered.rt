// Items with their numbers.
ghost use Rattle.std.specs.Prelude.{◌≡◌, ◌+◌, ◌<◌, ◌^◌, length, IfOk};
ghost use Rattle.opa_decl.specs.Numbering.{counts_after, no_counts, numbered, is_every, is_one};

use crate::items::{Item, Reach};
use opa_io::{List, NoMemory};
use std::alloc::Global;

/// How many things are declared before an item. The global entity counts as declared first.
#[derive(Clone, Copy, Debug, PartialEq, Eq)]
pub struct Counts {
    pub verbs: u32,
    pub entities: u32,
    pub attributes: u32,
    pub relations: u32,
    pub every: u32,
}

/// An item, and what is declared before it.
#[derive(Debug, Drop)]
pub struct Numbered {
    pub before: Counts,
    pub item: Item,
}

pub fn is_every(reach: Reach) -> bool
    ensures { result ≡ is_every reach }
{
    match reach {
        Reach::Every => true,
        Reach::One => false,
        Reach::Many => false,
    }
}

pub fn is_one(reach: Reach) -> bool
    ensures { result ≡ is_one reach }
{
    match reach {
        Reach::One => true,
        Reach::Many => false,
        Reach::Every => false,
    }
}

impl Counts {
    ghost use Rattle.std.specs.Prelude.{◌≡◌, ◌+◌, ◌-◌, ◌^◌, ℕ};
    ghost use Rattle.opa_decl.specs.Numbering.{counts_after, no_counts, AreFew};

    /// The global entity alone.
    fn none() -> Counts
        ensures { result ≡ no_counts }
    {
        Counts {
            verbs: 0,
            entities: 1,
            attributes: 0,
            relations: 0,
            every: 0,
        }
    }

    /// What is declared with one more item.
    fn after(self, item: &Item) -> Counts
        requires { AreFew (2 ^ 32 - 3) self }
        ensures value { result ≡ counts_after self item.now }
        ensures few { (n : ℕ) → AreFew n self → AreFew (n + 1) result }
    {
        let mut counts = self;
        match item {
            Item::Verb(_) => counts.verbs += 1,
            Item::Entity(_) => {
                counts.entities += 1;
                counts.relations += 1;
            }
            Item::Attribute(_) => counts.attributes += 1,
            Item::Relation(relation) => {
                counts.relations += 1;
                if is_every(relation.reach) {
                    counts.every += 1;
                }
            }
            Item::Goal(_) | Item::Screen(_) | Item::File(_) => {}
        }
        counts
    }
}

/// The items with their numbers.
pub fn with_numbers(alloc: Global, items: List<Item>) -> Result<List<Numbered>, NoMemory>
    requires { length items + 1 < 2 ^ 32 }
    ensures { IfOk result (λ ns. ns ≡ numbered no_counts items) }
{
    let mut all = List::new(alloc);
    let mut counts = Counts::none();
    for item in items.into_vec() {
        let before = counts;
        counts = before.after(&item);
        all.push(Numbered { before, item })?;
    }
    Ok(all)
}
