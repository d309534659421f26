// A session as what answers the lines of a run.
ghost use Rattle.std.specs.Prelude.{◌≡◌, ◌≤◌, ◌+◌, List, Option, IfOk};
ghost use Rattle.opa_session.specs.Infer.Sessions.{first_slots};
ghost use Rattle.opa_io.specs.Outside.{Files};
ghost use Rattle.opa_listen.specs.Hearing.{Hearer};
ghost use Rattle.opa_reply.specs.Held.{Held as Holding, beside, at_first};
ghost use Rattle.opa_reply.specs.Replies.{conversation, Lacks, Stops};

use crate::carrying::respond;
use crate::replying::asked;
use opa_io::{NoMemory, Shelf, Steps};
use opa_listen::Listener;
use opa_mean::Held;
use opa_session::Session;
use opa_talk::{Halt, Prompt, Replier};
use opa_tree::Rulebase;
use std::alloc::Global;
use std::sync::ledger::Ledger;

/// A session that answers lines: each is a command.
#[derive(Drop)]
pub struct Conversation<L: Ledger> {
    session: Session<L>,
}

impl<L: Ledger> Conversation<L> {
    /// Nothing is known of the case.
    pub fn start(
        alloc: Global,
        base: Rulebase,
        steps: &mut Steps<L>,
    ) -> Result<Conversation<L>, NoMemory>
        ensures first { IfOk result (λ c. (hearers : List Hearer) (files : Option Files) →
            ⟦<Conversation<L> as Replier<L>>⟧.held c hearers files steps.new ≡ at_first base hearers files steps.new) }
        ensures bound { steps.new ≤ steps.old + first_slots base }
    {
        let session = Session::start(alloc, base, steps)?;
        Ok(Conversation { session })
    }
}

impl<L: Ledger> Replier<L> for Conversation<L> {
    ghost Held = { Holding };

    ghost rule = { conversation };

    ghost Stops = { Stops };

    ghost Lacks = { Lacks };

    ghost held = { λ c hearers files steps. beside c.session hearers files steps };

    fn prompt(&self, alloc: Global) -> Result<Prompt, NoMemory> {
        Ok(Prompt {
            text: Vec::new(alloc),
            is_over: false,
        })
    }

    #[tactic(auto, using(crate::proofs::ReplyLaws::replying))]
    fn reply<F: Shelf>(
        &mut self,
        alloc: Global,
        shelf: &mut F,
        listeners: &mut Vec<Box<dyn Listener>>,
        steps: &mut Steps<L>,
        line: &[u8],
    ) -> Result<Vec<u8>, Halt> {
        let read = asked(alloc, &self.session.base().model, line);
        respond(alloc, &mut self.session, shelf, listeners, steps, read)
    }
}
