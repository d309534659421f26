// What is held of one claimant.
ghost use Rattle.std.specs.Prelude.{◌≡◌, ◌≤◌, true, false, length, is_some, Some, IfSome, IfOk, All};
ghost use Rattle.std.specs.Option.{option_copied};
ghost use Rattle.std.specs.FinMap as map;
ghost use Rattle.std.specs.FinMap.{FinMap};
ghost use Rattle.opa_cells.specs.Keys.{cell_cmp};
ghost use Rattle.opa_cells.specs.declared.instance.InstanceId.{InstanceId as InstanceView};
ghost use Rattle.opa_model.specs.declared.ids.RelId.{RelId as RelView};
ghost use Rattle.opa_case.specs.Live.{Names};
ghost use Rattle.opa_case.specs.Order.{live_in};
ghost use Rattle.opa_case.specs.Live as live;
ghost use Rattle.opa_case.specs.Cases as cases;
ghost use Rattle.opa_case.specs.Steps as step;

use crate::copies::{EachName, EachValue};
use crate::listed::Listed;
use crate::living::Living;
use opa_cells::{Cells, InstanceId};
use opa_io::{List, NoMemory, Txt, Witness};
use opa_line::Line;
use opa_model::{AttrId, Model, RelId};
use opa_value::Value;
use std::alloc::Global;

/// Answers, known lists, and the instances that they make live.
#[derive(Drop)]
pub struct Case {
    pub(crate) alloc: Global,
    pub(crate) lists: Listed,
    pub(crate) every: Cells<List<Txt>>,
    pub(crate) answers: Cells<Line<Value>>,
    pub(crate) living: Living,
    // For proofs alone: with the lists it tells the order of the live instances. None as long as no list was set.
    pub(crate) model: Option<Witness<Model>>,
}

impl std::marker::Model for Case {
    ghost use Rattle.std.specs.Prelude.{◌≡◌};
    ghost use Rattle.opa_case.specs.Cases.{CaseView, coded_case};
    ghost use Rattle.opa_case.specs.Homes.{AreHomes, AreCounts};
    ghost use Rattle.opa_case.specs.Order.{live_in};
    ghost use Rattle.opa_case.specs.Whole.{IsWhole};
    ghost use Rattle.opa_value.specs.contracts.value.Value as each;

    ghost Value = { CaseView };

    ghost coded = { coded_case each.the_row.coded };

    ghost view = { λ c. record {
      lists = c.lists;
      every = c.every;
      answers = c.answers;
      live = live_in c.model c.lists;
    } };

    ghost invariant = { λ c. AreHomes c.living.homes (live_in c.model c.lists) ×
        AreCounts c.living.counts (live_in c.model c.lists) ×
        IsWhole (record { lists = c.lists; every = c.every; answers = c.answers; live = live_in c.model c.lists }) };
}

impl Case {
    /// The case of which nothing is known.
    pub fn new(alloc: Global) -> Case
        ensures { result ≡ cases.no_case }
    {
        Case {
            alloc,
            lists: Listed::new(alloc),
            every: Cells::new(alloc),
            answers: Cells::new(alloc),
            living: Living::new(alloc),
            model: None,
        }
    }

    /// An equal case.
    pub fn copy(&self, alloc: Global) -> Result<Case, NoMemory>
        ensures { IfOk result (λ c. c ≡ self.now) }
    {
        let lists = self.lists.copy(alloc)?;
        let every = self.every.copy(alloc, &EachName)?;
        let answers = self.answers.copy(alloc, &EachValue)?;
        let living = self.living.copy(alloc)?;
        let model = again(&self.model);
        Ok(Case {
            alloc,
            lists,
            every,
            answers,
            living,
            model,
        })
    }

    /// Whether the instance is live.
    pub fn live(&self, inst: &InstanceId) -> bool
        ensures { result ≡ live.is_live self.now.live inst.now }
    {
        self.living.is_live(inst)
    }

    /// The container of a live instance; none of the global one.
    pub fn container_of(&self, inst: &InstanceId) -> Option<&InstanceId>
        ensures { option_copied result ≡ live.container_of self.now.live inst.now }
    {
        self.living.container_of(inst)
    }

    pub fn answer_of(&self, attr: AttrId, inst: &InstanceId) -> Option<&Line<Value>>
        ensures value { option_copied result ≡ map.get self.now.answers (attr.0, inst.now) }
        ensures lives { IfSome (option_copied result) (λ _. live.is_live self.now.live inst.now ≡ true) }
        ensures told { IfSome (option_copied result) (λ line. step.is_unknown_answer line ≡ false) }
        ensures few { IfSome (option_copied result) (λ line. length line ≤ 1000) }
    {
        self.answers.get(attr.0, inst)
    }

    pub fn list_of(&self, rel: RelId, inst: &InstanceId) -> Option<&List<Txt>>
        ensures { option_copied result ≡ cases.list_of self.now rel inst.now }
    {
        match self.lists.get(rel.0, inst) {
            Some(names) => Some(names),
            None => self.every.get(rel.0, inst),
        }
    }

    /// How many instances are live, without the global one.
    pub fn instances(&self) -> u64
        ensures value { result ≡ length self.now.live }
        ensures few { result ≤ 20000 }
    {
        self.living.counts.total()
    }

    pub fn answers(&self) -> u64
        ensures value { result ≡ map.len self.now.answers }
        ensures few { result ≤ 100000 }
    {
        self.answers.len()
    }

    /// How many lists of relations that aren't declared with `every` are known.
    pub fn lists(&self) -> u64
        ensures value { result ≡ map.len self.now.lists }
        ensures lives { (r : RelView) (i : InstanceView) (names : Names) →
            map.get self.now.lists (r.0, i) ≡ Some names → live.is_live self.now.live i ≡ true }
        ensures names { (r : RelView) (i : InstanceView) (names : Names) →
            map.get self.now.lists (r.0, i) ≡ Some names → cases.are_names names ≡ true }
        ensures short { (r : RelView) (i : InstanceView) (names : Names) →
            map.get self.now.lists (r.0, i) ≡ Some names → All (λ n. length n ≤ 100) names }
    {
        self.lists.len()
    }
}

impl Case {
    /// The list of a relation that isn't declared with `every`.
    pub(crate) fn stored_of(&self, rel: RelId, inst: &InstanceId) -> Option<&List<Txt>>
        ensures { option_copied result ≡ map.get self.now.lists (rel.0, inst.now) }
    {
        self.lists.get(rel.0, inst)
    }

    /// The list of a relation that is declared with `every`.
    pub(crate) fn every_of(&self, rel: RelId, inst: &InstanceId) -> Option<&List<Txt>>
        ensures { option_copied result ≡ map.get self.now.every (rel.0, inst.now) }
    {
        self.every.get(rel.0, inst)
    }

    /// The lists of the relations that aren't declared with `every`.
    pub(crate) fn stored(&self) -> &Listed
        ensures { result.now ≡ self.now.lists }
    {
        &self.lists
    }

    /// The lists of the relations that are.
    pub(crate) fn every(&self) -> &Cells<List<Txt>>
        ensures { result.now ≡ self.now.every }
    {
        &self.every
    }

    pub(crate) fn is_answered(&self, attr: AttrId, inst: &InstanceId) -> bool
        ensures { result ≡ is_some (map.get self.now.answers (attr.0, inst.now)) }
    {
        self.answers.get(attr.0, inst).is_some()
    }
}

/// The same witness again.
fn again(model: &Option<Witness<Model>>) -> Option<Witness<Model>>
    ensures { (lists : FinMap cell_cmp Names) → live_in result lists ≡ live_in model.now lists }
{
    match model {
        Some(witness) => Some(witness.again()),
        None => None,
    }
}
