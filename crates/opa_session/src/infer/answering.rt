// An answer is set, or taken away.
ghost use Rattle.std.specs.Prelude.{◌≡◌, ◌<◌, ◌≤◌, ◌+◌, ◌^◌, false, [], length, map, None, Some, IfOk, IfSome, OnOk, OnErr};
ghost use Rattle.opa_case.specs.Steps.{is_unknown_answer};
ghost use Rattle.opa_mean.specs.Reached.Settling.{AreCurrent, laid};
ghost use Rattle.opa_session.specs.Infer.Coming.{IsAnswerable};
ghost use Rattle.opa_session.specs.Infer.Sessions.{rules_of, held_of, reached_of, reached, Tells};
ghost use Rattle.opa_listen.specs.Hearing.{hearer};
ghost use Rattle.opa_mean.specs.Rulebases.{IsOf};
ghost use Rattle.opa_model.specs.Models.{HasAttribute};
ghost use Rattle.opa_session.specs.Store.Nexts.{answered};
ghost use Rattle.opa_session.specs.Store.Stores.{kept_of, staged_of};

use crate::infer::session::Session;
use crate::infer::settling::prepare_answer;
use crate::settlement::same_are_current;
use crate::store::Store;
use opa_case::{Case, InstanceId};
use opa_io::{NoMemory, Steps};
use opa_line::Line;
use opa_listen::{Listener, tell};
use opa_model::AttrId;
use opa_tree::Rulebase;
use opa_value::Value;
use std::alloc::Global;
use std::sync::ledger::Ledger;

impl<L: Ledger> Session<L> {
    /// Sets an answer, or takes it away where there is no line, and tells each listener of the changes; without memory for it the
    /// session and what listeners keep are as they were. The case is changed last of all that may want memory.
    pub(crate) fn put_line(
        &mut self,
        alloc: Global,
        attr: AttrId,
        inst: &InstanceId,
        line: Option<Line<Value>>,
        listeners: &mut Vec<Box<dyn Listener>>,
        steps: &mut Steps<L>,
    ) -> Result<u32, NoMemory>
        requires may { IsAnswerable (rules_of self.old) (held_of self.old) attr inst.now line }
        requires fewer { length listeners.old.items < 2 ^ 64 }
        ensures ok { OnOk result (held_of self.new ≡ answered (held_of self.old) attr inst.now line) }
        ensures reached { OnOk result (reached_of self.new ≡ reached (rules_of self.old) (held_of self.old) (answered (held_of self.old) attr inst.now line)) }
        ensures told { IfOk result (Tells (rules_of self.old) (held_of self.old) (answered (held_of self.old) attr inst.now line) (map (λ l. hearer (state l)) listeners.old.items) (map (λ l. hearer (state l)) listeners.new.items)) }
        ensures case { OnErr result (held_of self.new ≡ held_of self.old) }
        ensures still { OnErr result (reached_of self.new ≡ reached_of self.old) }
        ensures quiet { OnErr result (map (λ l. hearer (state l)) listeners.new.items ≡ map (λ l. hearer (state l)) listeners.old.items) }
        ensures base { rules_of self.new ≡ rules_of self.old }
        ensures counted { OnOk result (steps.new ≡ steps.old + reached (rules_of self.old) (held_of self.old) (answered (held_of self.old) attr inst.now line)) }
        ensures bound { steps.new ≤ steps.old + reached (rules_of self.old) (held_of self.old) (answered (held_of self.old) attr inst.now line) }
    {
        let _count = self.base.model.attribute_count();
        let ready = prepare_answer(
            alloc,
            &self.base,
            &self.code,
            &self.readers,
            &self.case,
            attr,
            inst,
            line.as_ref(),
            &mut self.store,
            steps,
            listeners,
        )?;
        same_are_current();
        let dirty = keep_answer(
            &self.base,
            &mut self.case,
            attr,
            inst,
            line,
            &mut self.store,
        )?;
        self.dirty = dirty;
        tell(listeners, ready.lists);
        Ok(ready.count)
    }
}

/// Changes the case, and keeps what is staged; without memory the case stays, and nothing is staged any more. It tells how many
/// slots were staged.
fn keep_answer<L: Ledger>(
    base: &Rulebase,
    case: &mut Case,
    attr: AttrId,
    inst: &InstanceId,
    line: Option<Line<Value>>,
    store: &mut Store<L>,
) -> Result<u64, NoMemory>
    requires declared { HasAttribute base.now.model attr }
    requires fits { IsOf base.now case.old }
    requires tells { IfSome line (λ l. is_unknown_answer l ≡ false) }
    requires held { AreCurrent base.now case.old (kept_of store.old) }
    requires current { AreCurrent base.now (answered case.old attr inst.now line) (laid (kept_of store.old) (staged_of store.old)) }
    ensures case { OnOk result (case.new ≡ answered case.old attr inst.now line) }
    ensures current { OnOk result (AreCurrent base.now (answered case.old attr inst.now line) (kept_of store.new)) }
    ensures dirty { IfOk result (λ n. n ≡ length store.old.slots) }
    ensures unchanged { OnErr result (case.new ≡ case.old) }
    ensures held { OnErr result (AreCurrent base.now case.new (kept_of store.new)) }
    ensures empty { store.new.slots ≡ [] }
{
    same_are_current();
    match write_answer(base, case, attr, inst, line) {
        Ok(()) => {
            let dirty = store.slots().len() as u64;
            store.commit();
            Ok(dirty)
        }
        Err(_) => {
            store.abandon();
            Err(NoMemory)
        }
    }
}

fn write_answer(
    base: &Rulebase,
    case: &mut Case,
    attr: AttrId,
    inst: &InstanceId,
    line: Option<Line<Value>>,
) -> Result<(), NoMemory>
    requires declared { HasAttribute base.now.model attr }
    requires fits { IsOf base.now case.old }
    requires tells { IfSome line (λ l. is_unknown_answer l ≡ false) }
    ensures case { OnOk result (case.new ≡ answered case.old attr inst.now line) }
    ensures unchanged { OnErr result (case.new ≡ case.old) }
{
    match line {
        Some(line) => write_line(base, case, attr, inst, line),
        None => drop_line(base, case, attr, inst),
    }
}

fn write_line(
    base: &Rulebase,
    case: &mut Case,
    attr: AttrId,
    inst: &InstanceId,
    line: Line<Value>,
) -> Result<(), NoMemory>
    requires declared { HasAttribute base.now.model attr }
    requires fits { IsOf base.now case.old }
    requires tells { is_unknown_answer line ≡ false }
    ensures case { OnOk result (case.new ≡ answered case.old attr inst.now (Some line)) }
    ensures unchanged { OnErr result (case.new ≡ case.old) }
{
    match case.answer(&base.model, &base.ruled, attr, inst, line) {
        Ok(()) => Ok(()),
        Err(_) => Err(NoMemory),
    }
}

fn drop_line(
    base: &Rulebase,
    case: &mut Case,
    attr: AttrId,
    inst: &InstanceId,
) -> Result<(), NoMemory>
    requires declared { HasAttribute base.now.model attr }
    requires fits { IsOf base.now case.old }
    ensures case { OnOk result (case.new ≡ answered case.old attr inst.now None) }
    ensures unchanged { OnErr result (case.new ≡ case.old) }
{
    match case.withdraw(&base.model, &base.ruled, attr, inst) {
        Ok(()) => Ok(()),
        Err(_) => Err(NoMemory),
    }
}
