// A case is kept under a name.
ghost use Rattle.std.specs.Prelude.{◌≡◌, ◌≤◌, ℕ, List, IfOk, OnErr, IfErr};
ghost use Rattle.opa_talk.specs.Halt.{IsReplyCause};
ghost use Rattle.opa_listen.specs.Hearing.{Hearer};
ghost use Rattle.opa_script.specs.declared.command.Command.TheVariants as commands;
ghost use Rattle.opa_reply.specs.Held.{beside};
ghost use Rattle.opa_reply.specs.Replies.{CarriesOut, HaltsAt};

use opa_io::{Shelf, Txt};
use opa_mean::Held;
use opa_saved::saved_text;
use opa_session::Session;
use opa_talk::Halt;
use std::alloc::Global;
use std::sync::ledger::Ledger;

/// Keeps the case under a name. All memory is taken before.
#[tactic(auto, using(crate::proofs::Saving::saving))]
pub(crate) fn save<F: Shelf, L: Ledger>(
    alloc: Global,
    session: &Session<L>,
    shelf: &mut F,
    name: &Txt,
) -> Result<Vec<u8>, Halt>
    ensures ok { IfOk result (λ t. (hearers : List Hearer) (steps : ℕ) → CarriesOut (commands.Save name.now) (beside session.now hearers (F.files shelf.old) steps) t.items (beside session.now hearers (F.files shelf.new) steps)) }
    ensures err { OnErr result ((hearers : List Hearer) (steps : ℕ) → HaltsAt (F.keep_faults shelf.old) (F.keep_faults shelf.new) (commands.Save name.now) (beside session.now hearers (F.files shelf.old) steps) (beside session.now hearers (F.files shelf.new) steps)) }
    ensures cause { IfErr result (IsReplyCause (F.take_faults shelf.old) (F.take_faults shelf.new) (F.keep_faults shelf.old) (F.keep_faults shelf.new)) }
    ensures later_take { F.take_faults shelf.old ≤ F.take_faults shelf.new }
    ensures later_keep { F.keep_faults shelf.old ≤ F.keep_faults shelf.new }
{
    let base = session.base();
    let said = b"saved\n".to_vec(alloc)?;
    let text = saved_text(alloc, &base.model, session.case())?;
    match shelf.keep(name.as_str(), text.as_slice()) {
        Ok(()) => Ok(said),
        Err(_) => Err(Halt::Keep),
    }
}
