// What answers lines.
ghost use Rattle.std.specs.Prelude.{◌≡◌, ◌≤◌, ◌<◌, ◌^◌, List, ℕ, Option, length, map, IfOk, IfErr, OnErr};
ghost use Rattle.opa_io.specs.Outside.{Files};
ghost use Rattle.opa_listen.specs.Hearing.{Hearer, hearer};
ghost use Rattle.opa_talk.specs.Halt.{IsReplyCause};
ghost use Rattle.opa_talk.specs.Transcript.{Rule};
ghost use Rattle.opa_talk.specs.Talk.{IsPrompt, MayLeave, LeftBy};

use crate::halt::Halt;
use opa_io::{NoMemory, Shelf, Steps};
use opa_listen::Listener;
use std::alloc::Global;
use std::sync::ledger::Ledger;

/// What stands before a line, and whether no line is taken any more.
#[derive(Drop)]
pub struct Prompt {
    pub text: Vec<u8>,
    pub is_over: bool,
}

/// What answers lines, one after another, beside a shelf of files and the listeners of its caller. Its steps are counted on one
/// ledger.
pub trait Replier<L: Ledger> {
    /// What is held between two lines, what listeners hear, the files and the steps included.
    ghost Held: { Type 0 };

    /// What may be printed, and what is held afterwards.
    ghost rule: { Rule Held };

    /// What may be held where the reply to a line halts and keeping a file failed.
    ghost Stops: { Held → List ℕ → Held → Type 0 };

    /// What may be held where it halts for want of memory; else all is held as it was.
    ghost Lacks: { Held → List ℕ → Held → Type 0 };

    /// What is held now, beside what listeners hear, the files of a shelf and the steps that were counted.
    ghost held: { Self → List Hearer → Option Files → ℕ → Held };

    /// What stands before the next line, whatever listeners hear, whatever the files, and however many the steps.
    fn prompt(&self, alloc: Global) -> Result<Prompt, NoMemory>
        ensures { IfOk result (λ prompt. (hearers : List Hearer) (files : Option Files) (steps : ℕ) → IsPrompt rule (held self.now hearers files steps) prompt.text.items prompt.is_over) };

    /// Carries out a line, which a line feed ends unless it is the last, and answers what it prints. `fewer` holds of each
    /// vector, and tells callers that no listener is made.
    fn reply<F: Shelf>(
        &mut self,
        alloc: Global,
        shelf: &mut F,
        listeners: &mut Vec<Box<dyn Listener>>,
        steps: &mut Steps<L>,
        line: &[u8],
    ) -> Result<Vec<u8>, Halt>
        requires fewer { length listeners.old.items < 2 ^ 64 }
        ensures ok { IfOk result (λ text. rule.Replies (held self.old (map (λ l. hearer (state l)) listeners.old.items) (F.files shelf.old) steps.old) line.now text.items (held self.new (map (λ l. hearer (state l)) listeners.new.items) (F.files shelf.new) steps.new)) }
        ensures err { OnErr result (LeftBy (MayLeave (F.keep_faults shelf.old) (F.keep_faults shelf.new) Stops Lacks) (held self.old (map (λ l. hearer (state l)) listeners.old.items) (F.files shelf.old) steps.old) line.now (held self.new (map (λ l. hearer (state l)) listeners.new.items) (F.files shelf.new) steps.new)) }
        ensures cause { IfErr result (IsReplyCause (F.take_faults shelf.old) (F.take_faults shelf.new) (F.keep_faults shelf.old) (F.keep_faults shelf.new)) }
        ensures later_take { F.take_faults shelf.old ≤ F.take_faults shelf.new }
        ensures later_keep { F.keep_faults shelf.old ≤ F.keep_faults shelf.new };
}
