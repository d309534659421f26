// Ranks: each attribute's is found once those that its rule mentions are.
ghost use Rattle.std.specs.Prelude.{ℕ, ◌≡◌, ◌<◌, ◌≤◌, ◌+◌, ◌-◌, ◌^◌, length, map, slice_get, Some, None, IfOk};
ghost use Rattle.std.specs.Bool.{OnTrue, OnFalse};
ghost use Rattle.opa_model.specs.declared.ids.AttrId.{AttrId as AttrView};
ghost use Rattle.opa_rulebase.specs.Checking.Found.{rank_found, higher, highest_found, found_by, AreFound, AreAll, IsDone};

use crate::checking::order::order;
use opa_io::{List, NoMemory, front};
use opa_model::AttrId;
use std::alloc::Global;

/// The rank of an attribute, if it is found. One that isn't declared has no rule, and rank 0.
pub fn rank_found(ranks: &[Option<u32>], attr: AttrId) -> Option<u32>
    ensures { result ≡ rank_found ranks.now attr }
{
    match ranks.get(attr.0 as usize) {
        Some(rank) => *rank,
        None => Some(0),
    }
}

/// The higher of two ranks, where both are found.
fn higher(first: Option<u32>, second: Option<u32>) -> Option<u32>
    ensures { result ≡ higher first second }
{
    match (first, second) {
        (None, _) => None,
        (Some(_), None) => None,
        (Some(m), Some(n)) => Some(m.max(n)),
    }
}

/// The highest rank of those mentioned, where all are found.
#[tactic(auto, using(crate::proofs::checking::TakeLaws::highers))]
fn highest_found(ranks: &[Option<u32>], mentioned: &[AttrId]) -> Option<u32>
    ensures { result ≡ highest_found (map (rank_found ranks.now) mentioned.now) }
{
    let mut best = Some(0);
    let mut rest = mentioned;
    while let Some((attr, later)) = front(rest) {
        best = higher(best, rank_found(ranks, *attr));
        rest = later;
    }
    best
}

/// The rank that an attribute has by what its rule mentions, where those ranks are found.
fn found_by(ranks: &[Option<u32>], used: &Option<List<AttrId>>, most: u32) -> Option<u32>
    requires few { most < 2 ^ 32 - 1 }
    requires low { (b : AttrView) (k : ℕ) → rank_found ranks.now b ≡ Some k → k ≤ most }
    ensures { result ≡ found_by ranks.now used.now }
{
    match used {
        None => Some(0),
        Some(mentioned) => match highest_found(ranks, mentioned.as_slice()) {
            None => None,
            Some(highest) => Some(1 + highest),
        },
    }
}

/// The ranks that are found so far, and how many.
#[derive(Drop)]
pub struct Ranking {
    pub ranks: Vec<Option<u32>>,
    taken: u32,
}

impl Ranking {
    /// None is found.
    fn none(alloc: Global, uses: &[Option<List<AttrId>>]) -> Result<Ranking, NoMemory>
        ensures { IfOk result (λ r. AreFound uses.now r.ranks.items r.taken) }
    {
        let mut ranks = Vec::new(alloc);
        for _ in 0..uses.len() {
            ranks.push(None)?;
        }
        Ok(Ranking { ranks, taken: 0 })
    }

    /// Finds the rank of an attribute, if it isn't found and can be.
    #[tactic(auto, using(crate::proofs::checking::TakeLaws::low_found))]
    fn take(&mut self, uses: &[Option<List<AttrId>>], attr: AttrId) -> bool
        requires few { length uses.now < 2 ^ 32 }
        requires declared { attr.0 < length uses.now }
        requires found { AreFound uses.now self.old.ranks.items self.old.taken }
        ensures found { AreFound uses.now self.new.ranks.items self.new.taken }
        ensures more { OnTrue result (self.new.taken ≡ self.old.taken + 1) }
        ensures same { OnFalse result (self.new ≡ self.old) }
        ensures done { OnFalse result (IsDone uses.now self.old.ranks.items attr) }
    {
        let place = attr.0 as usize;
        if self.ranks[place].is_some() {
            return false;
        }
        match found_by(&self.ranks, &uses[place], self.taken) {
            None => false,
            Some(rank) => {
                self.ranks[place] = Some(rank);
                self.taken += 1;
                true
            }
        }
    }

    /// Finds ranks in this order.
    fn take_in(&mut self, uses: &[Option<List<AttrId>>], places: &[u32])
        requires few { length uses.now < 2 ^ 32 }
        requires found { AreFound uses.now self.old.ranks.items self.old.taken }
        ensures found { AreFound uses.now self.new.ranks.items self.new.taken }
    {
        for place in places {
            if (*place as usize) < uses.len() {
                self.take(uses, AttrId(*place));
            }
        }
    }

    /// Tries each attribute once, and tells whether a rank was found.
    fn pass(&mut self, uses: &[Option<List<AttrId>>]) -> bool
        requires few { length uses.now < 2 ^ 32 }
        requires found { AreFound uses.now self.old.ranks.items self.old.taken }
        ensures found { AreFound uses.now self.new.ranks.items self.new.taken }
        ensures more { OnTrue result (self.old.taken < self.new.taken) }
        ensures all { OnFalse result (AreAll uses.now self.new.ranks.items) }
    {
        let mut any = false;
        for place in 0..uses.len() as u32 {
            if self.take(uses, AttrId(place)) {
                any = true;
            }
        }
        any
    }
}

/// All ranks that can be found. The order in which they are tried makes one pass enough; a second one shows it.
pub fn all_ranks(alloc: Global, uses: &[Option<List<AttrId>>]) -> Result<Ranking, NoMemory>
    requires few { length uses.now < 2 ^ 32 }
    ensures found { IfOk result (λ r. AreFound uses.now r.ranks.items r.taken) }
    ensures all { IfOk result (λ r. AreAll uses.now r.ranks.items) }
{
    let mut ranking = Ranking::none(alloc, uses)?;
    let places = order(alloc, uses)?;
    ranking.take_in(uses, &places);
    while ranking.pass(uses) {}
    Ok(ranking)
}
