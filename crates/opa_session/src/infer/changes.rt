// A session takes a command.
ghost use Rattle.std.specs.Prelude.{◌≡◌, ◌≢◌, ◌<◌, ◌≤◌, ◌+◌, ◌^◌, length, map, Ok, Err, IfOk, IfErr, OnOk, OnErr};
ghost use Rattle.opa_case.specs.Cases.{CaseView};
ghost use Rattle.opa_case.specs.Laws.{IsDeclared};
ghost use Rattle.opa_case.specs.Shapes.{shape_of};
ghost use Rattle.opa_case.specs.declared.change.Refusal.{Refusal as Refused};
ghost use Rattle.opa_case.specs.declared.change.Refusal.TheVariants as refusals;
ghost use Rattle.opa_session.specs.Infer.Sessions.{rules_of, held_of, reached_of, changed_by, reached, Tells};
ghost use Rattle.opa_listen.specs.Hearing.{hearer};

use crate::infer::coming::{coming_answer, coming_withdrawal};
use crate::infer::session::Session;
use opa_case::{ChangeCommand, Refusal};
use opa_io::Steps;
use opa_listen::Listener;
use std::alloc::Global;
use std::sync::ledger::Ledger;

impl<L: Ledger> Session<L> {
    /// Makes a change whole, tells each listener of it, and answers how many values differ; or refuses it with the session and
    /// what listeners keep as they were. Of the lines those alone are derived again that the change reaches.
    pub fn apply(
        &mut self,
        alloc: Global,
        command: ChangeCommand,
        listeners: &mut Vec<Box<dyn Listener>>,
        steps: &mut Steps<L>,
    ) -> Result<u32, Refusal>
        requires declared { IsDeclared (shape_of (rules_of self.old).model) command }
        requires fewer { length listeners.old.items < 2 ^ 64 }
        ensures ok { OnOk result (changed_by command self.old ≡ Ok (held_of self.new)) }
        ensures reached { OnOk result (reached_of self.new ≡ reached (rules_of self.old) (held_of self.old)
            (held_of self.new)) }
        ensures told { IfOk result (Tells (rules_of self.old) (held_of self.old) (held_of self.new)
            (map (λ l. hearer (state l)) listeners.old.items) (map (λ l. hearer (state l)) listeners.new.items)) }
        ensures err { IfErr result (λ e. e ≢ refusals.NoMemory → changed_by command self.old ≡ Err e) }
        ensures case { OnErr result (held_of self.new ≡ held_of self.old) }
        ensures still { OnErr result (reached_of self.new ≡ reached_of self.old) }
        ensures quiet { OnErr result (map (λ l. hearer (state l)) listeners.new.items ≡ map
            (λ l. hearer (state l)) listeners.old.items) }
        ensures base { rules_of self.new ≡ rules_of self.old }
        ensures counted { OnOk result (steps.new ≡ steps.old + reached (rules_of self.old) (held_of self.old)
            (held_of self.new)) }
        ensures bound { (c : CaseView) → changed_by command self.old ≡ Ok c →
            steps.new ≤ steps.old + reached (rules_of self.old) (held_of self.old) c }
        ensures uncounted { (e : Refused) → changed_by command self.old ≡ Err e → steps.new ≡ steps.old }
    {
        // The count shows the model's form.
        let _count = self.base.model.attribute_count();
        match command {
            ChangeCommand::Answer(attr, inst, line) => {
                let line = coming_answer(&self.base, &self.case, attr, &inst, line)?;
                let count = self.put_line(alloc, attr, &inst, line, listeners, steps)?;
                Ok(count)
            }
            ChangeCommand::Withdraw(attr, inst) => {
                coming_withdrawal(&self.base, &self.case, attr, &inst)?;
                let count = self.put_line(alloc, attr, &inst, None, listeners, steps)?;
                Ok(count)
            }
            ChangeCommand::SetList(rel, inst, names) => {
                let names = Some(names);
                self.put_names(alloc, rel, &inst, names, listeners, steps)
            }
            ChangeCommand::Forget(rel, inst) => {
                self.put_names(alloc, rel, &inst, None, listeners, steps)
            }
        }
    }
}
