// The lines that are kept, and those that are staged over them, as what tells lines, lists and containers.
ghost use Rattle.std.specs.Prelude.{◌≡◌, cond, None};
ghost use Rattle.std.specs.Option.{option_copied};
ghost use Rattle.std.proofs.Props.{props};
ghost use Rattle.opa_cells.specs.Instances.{coded_instance};
ghost use Rattle.opa_case.specs.Cases.{coded_lists, coded_population};
ghost use Rattle.opa_case.specs.Fits.{Fits};
ghost use Rattle.opa_case.specs.Shapes.{shape_of};
ghost use Rattle.opa_mean.specs.Reached.Settling.{AreCurrent, laid_over};
ghost use Rattle.opa_mean.specs.Rulebases.{IsOf};
ghost use Rattle.opa_session.specs.Store.Stores.{kept_of, staged_of};
ghost use Rattle.opa_value.specs.contracts.value.Value as each;

use crate::infer::told::told_line;
use crate::store::{Next, Store};
use crate::telling::Lined;
use opa_case::{Case, InstanceId};
use opa_io::{List, Txt};
use opa_line::Line;
use opa_model::{AttrId, RelId};
use opa_tree::Rulebase;
use opa_value::Value;
use std::sync::ledger::Ledger;

/// The kept lines, over the case that is held.
#[derive(Drop)]
pub(crate) struct Kept<'a, L: Ledger> {
    base: &'a Rulebase,
    case: &'a Case,
    store: &'a Store<L>,
    ghost fits: { Fits (shape_of base.now.model) base.now.ruled case.now } by { Prim.hlevel (props, coded_lists, coded_population, coded_instance) },
    ghost current: { AreCurrent base.now case.now (kept_of store.now) } by { Prim.hlevel (props, each.the_row.coded) },
}

impl<'a, L: Ledger> Kept<'a, L> {
    pub(crate) fn new(base: &'a Rulebase, case: &'a Case, store: &'a Store<L>) -> Kept<'a, L>
        requires fits { IsOf base.now case.now }
        requires current { AreCurrent base.now case.now (kept_of store.now) }
        ensures base { result.base.now ≡ base.now }
        ensures case { result.case.now ≡ case.now }
    {
        Kept { base, case, store }
    }
}

impl<'a, L: Ledger> Lined for Kept<'a, L> {
    ghost rules = { λ k. k.base.now };

    ghost over = { λ k. k.case.now };

    fn base(&self) -> &Rulebase {
        // The count shows the model's form.
        let _count = self.base.model.entity_count();
        self.base
    }

    fn line(&self, attr: AttrId, inst: &InstanceId) -> Option<&Line<Value>> {
        let _count = self.base.model.entity_count();
        told_line(self.base, self.case, self.store.get(attr, inst), attr, inst)
    }

    fn list_of(&self, rel: RelId, inst: &InstanceId) -> Option<&List<Txt>> {
        self.case.list_of(rel, inst)
    }

    fn container_of(&self, inst: &InstanceId) -> Option<&InstanceId> {
        self.case.container_of(inst)
    }

    fn place(&self, inst: &InstanceId) -> Option<usize> {
        self.store.place(inst)
    }
}

/// The staged lines, and else the kept ones, over the case that comes.
#[derive(Drop)]
pub(crate) struct Laid<'a, N: Next, L: Ledger> {
    base: &'a Rulebase,
    next: &'a N,
    store: &'a Store<L>,
    ghost fits: { Fits (shape_of base.now.model) base.now.ruled (N.next next.now) } by { Prim.hlevel (props, coded_lists, coded_population, coded_instance) },
    ghost current: { AreCurrent base.now (N.next next.now) (laid_over (N.next next.now) (kept_of store.now) (staged_of store.now)) } by { Prim.hlevel (props, each.the_row.coded) },
}

impl<'a, N: Next, L: Ledger> Laid<'a, N, L> {
    pub(crate) fn new(base: &'a Rulebase, next: &'a N, store: &'a Store<L>) -> Laid<'a, N, L>
        requires fits { IsOf base.now (N.next next.now) }
        requires current { AreCurrent base.now (N.next next.now) (laid_over (N.next next.now) (kept_of store.now) (staged_of store.now)) }
        ensures base { result.base.now ≡ base.now }
        ensures next { result.next.now ≡ next.now }
    {
        Laid { base, next, store }
    }
}

impl<'a, N: Next, L: Ledger> Lined for Laid<'a, N, L> {
    ghost rules = { λ l. l.base.now };

    ghost over = { λ l. N.next l.next.now };

    fn base(&self) -> &Rulebase {
        let _count = self.base.model.entity_count();
        self.base
    }

    #[inline(always)]
    fn line(&self, attr: AttrId, inst: &InstanceId) -> Option<&Line<Value>> {
        let _count = self.base.model.entity_count();
        let found = laid_line(self.store, self.next, attr, inst);
        told_line(self.base, self.next, found, attr, inst)
    }

    fn list_of(&self, rel: RelId, inst: &InstanceId) -> Option<&List<Txt>> {
        self.next.list_of(rel, inst)
    }

    fn container_of(&self, inst: &InstanceId) -> Option<&InstanceId> {
        self.next.container_of(inst)
    }

    fn place(&self, inst: &InstanceId) -> Option<usize> {
        self.store.place(inst)
    }
}

/// The staged line of what is live, or else its kept one.
fn laid_line<'a, N: Next, L: Ledger>(
    store: &'a Store<L>,
    next: &N,
    attr: AttrId,
    inst: &InstanceId,
) -> Option<&'a Line<Value>>
    ensures { option_copied result ≡ laid_over (N.next next.now) (kept_of store.now) (staged_of store.now) attr inst.now }
{
    if !next.live(inst) {
        return None;
    }
    match store.staged(attr, inst) {
        Some(line) => Some(line),
        None => store.get(attr, inst),
    }
}
