// A caseload as what answers the lines of an input.
ghost use Rattle.std.specs.Prelude.{◌≡◌, ℕ, List, Option, IfOk};
ghost use Rattle.opa_io.specs.Outside.{Files};
ghost use Rattle.opa_listen.specs.Hearing.{Hearer};
ghost use Rattle.opa_cases.specs.Caseload as meant;
ghost use Rattle.opa_cases.specs.Answering.{holding};

use crate::answering::answer;
use crate::caseload::Caseload;
use crate::name_map::Named;
use opa_io::{NoMemory, Shelf, Steps};
use opa_listen::Listener;
use opa_session::Session;
use opa_talk::{Halt, Prompt, Replier};
use opa_tree::Rulebase;
use std::alloc::Global;
use std::sync::ledger::Ledger;

impl<L: Ledger> Caseload<L> {
    /// No case is open.
    pub fn start(
        alloc: Global,
        base: Rulebase,
        steps: &mut Steps<L>,
    ) -> Result<Caseload<L>, NoMemory>
        ensures { IfOk result (λ c. (files : Option Files) → holding c files ≡ meant.at_first base files) }
    {
        let session = Session::start(alloc, base, steps)?;
        Ok(Caseload {
            session,
            current: None,
            others: Named::new(alloc),
        })
    }
}

impl<L: Ledger> Replier<L> for Caseload<L> {
    ghost Held = { meant.Held };

    ghost rule = { meant.caseload };

    ghost Stops = { meant.Stops };

    ghost Lacks = { meant.Lacks };

    ghost held = { λ c hearers files steps. holding c files };

    fn prompt(&self, alloc: Global) -> Result<Prompt, NoMemory> {
        Ok(Prompt {
            text: Vec::new(alloc),
            is_over: false,
        })
    }

    fn reply<F: Shelf>(
        &mut self,
        alloc: Global,
        shelf: &mut F,
        listeners: &mut Vec<Box<dyn Listener>>,
        steps: &mut Steps<L>,
        line: &[u8],
    ) -> Result<Vec<u8>, Halt> {
        let text = answer(alloc, self, steps, line)?;
        Ok(text)
    }
}
