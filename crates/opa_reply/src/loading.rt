// A case is loaded from a file.
ghost use Rattle.std.specs.Prelude.{◌≡◌, ◌≢◌, ◌≤◌, ◌<◌, ◌^◌, Option, length, map, IfOk, IfSome, OnErr, IfErr};
ghost use Rattle.opa_case.specs.Fits.{Fits};
ghost use Rattle.opa_case.specs.Shapes.{shape_of};
ghost use Rattle.opa_session.specs.Infer.Sessions.{rules_of, held_of, reached_of};
ghost use Rattle.opa_io.specs.Outside.{Files};
ghost use Rattle.opa_listen.specs.Hearing.{hearer};
ghost use Rattle.opa_talk.specs.Halt.{IsReplyCause};
ghost use Rattle.opa_saved.specs.declared.fault.LoadFault.TheVariants as faults;
ghost use Rattle.opa_saved.specs.Faults.{fault_number};
ghost use Rattle.opa_reply.specs.Held.{beside};
ghost use Rattle.opa_reply.specs.Loads.{loaded_text as origin_text, refused_load as load_text, LoadsBytes, Loads};
ghost use Rattle.opa_reply.specs.Replies.{Settles, LoadsFile, HaltsAt, ReachesAll};
ghost use Rattle.opa_script.specs.declared.command.Command.TheVariants as commands;

use crate::refused::refused;
use opa_case::Case;
use opa_io::limits::MOST_FILE;
use opa_io::{NoMemory, Shelf, Steps, TakeFault, Txt};
use opa_listen::Listener;
use opa_mean::Held;
use opa_saved::{LoadFault, Origin, load};
use opa_session::Session;
use opa_talk::Halt;
use opa_tree::Rulebase;
use std::alloc::Global;
use std::sync::ledger::Ledger;

/// What is printed of a file, and the case that was loaded, if one was.
#[derive(Drop)]
struct Loading {
    text: Vec<u8>,
    case: Option<Case>,
}

/// Where a case came from.
fn loaded_text(alloc: Global, origin: Origin) -> Result<Vec<u8>, NoMemory>
    ensures { IfOk result (λ t. t.items ≡ origin_text origin) }
{
    match origin {
        Origin::Same => Ok(b"loaded\n".to_vec(alloc)?),
        Origin::Other => Ok(b"loaded from another model\n".to_vec(alloc)?),
        Origin::First => Ok(b"loaded from version 1\n".to_vec(alloc)?),
    }
}

/// The refusal of bytes that are no saved case; there is none for want of memory.
fn refused_load(alloc: Global, fault: LoadFault) -> Result<Vec<u8>, NoMemory>
    ensures some { IfOk result (λ _. fault ≢ faults.NoMemory) }
    ensures text { IfOk result (λ t. t.items ≡ load_text (fault_number fault)) }
{
    match fault {
        LoadFault::NotJson => refused(alloc, "load", 1),
        LoadFault::Shape => refused(alloc, "load", 2),
        LoadFault::Name => refused(alloc, "load", 3),
        LoadFault::Kind => refused(alloc, "load", 4),
        LoadFault::Range => refused(alloc, "load", 5),
        LoadFault::Limit => refused(alloc, "load", 6),
        LoadFault::NoMemory => Err(NoMemory),
    }
}

/// A refusal of a file.
fn refusal(text: Vec<u8>) -> Loading
    ensures text { result.text.items ≡ text.items }
    ensures case { result.case ≡ None }
{
    Loading { text, case: None }
}

/// Reads a case from bytes.
#[tactic(auto, using(crate::proofs::LoadLaws::of_bytes))]
fn load_bytes(alloc: Global, base: &Rulebase, bytes: &[u8]) -> Result<Loading, NoMemory>
    ensures ok { IfOk result (λ l. LoadsBytes base.now bytes.now l.text.items l.case) }
    ensures fits { IfOk result (λ l. IfSome l.case (Fits (shape_of base.now.model) base.now.ruled)) }
{
    match load(alloc, &base.model, &base.ruled, bytes) {
        Ok(loaded) => {
            let text = loaded_text(alloc, loaded.origin)?;
            Ok(Loading {
                text,
                case: Some(loaded.case),
            })
        }
        Err(fault) => {
            let text = refused_load(alloc, fault)?;
            Ok(refusal(text))
        }
    }
}

/// Reads a case from the file of this name.
#[tactic(auto, using(crate::proofs::LoadLaws::of_files))]
fn read_file<F: Shelf>(
    alloc: Global,
    base: &Rulebase,
    shelf: &mut F,
    name: &Txt,
) -> Result<Loading, Halt>
    ensures ok { IfOk result (λ l. Loads base.now (F.files shelf.old) name.now l.text.items l.case) }
    ensures fits { IfOk result (λ l. IfSome l.case (Fits (shape_of base.now.model) base.now.ruled)) }
    ensures files { F.files shelf.new ≡ F.files shelf.old }
    ensures cause { IfErr result (IsReplyCause (F.take_faults shelf.old) (F.take_faults shelf.new) (F.keep_faults shelf.old) (F.keep_faults shelf.new)) }
    ensures later_take { F.take_faults shelf.old ≤ F.take_faults shelf.new }
    ensures later_keep { F.keep_faults shelf.old ≤ F.keep_faults shelf.new }
{
    match shelf.take(alloc, name.as_str(), MOST_FILE) {
        Ok(bytes) => {
            let loading = load_bytes(alloc, base, bytes.as_slice())?;
            Ok(loading)
        }
        Err(TakeFault::Missing) => {
            let text = refused(alloc, "load", 7)?;
            Ok(refusal(text))
        }
        Err(TakeFault::TooLong) => {
            let text = refused(alloc, "load", 6)?;
            Ok(refusal(text))
        }
        Err(TakeFault::Failed) => Err(Halt::Take),
        Err(TakeFault::NoMemory) => Err(Halt::Memory),
    }
}

/// Puts a case that was loaded in the place of the one that is held.
#[tactic(auto, using(crate::proofs::Settling::settling))]
fn settle<L: Ledger>(
    alloc: Global,
    session: &mut Session<L>,
    listeners: &mut Vec<Box<dyn Listener>>,
    steps: &mut Steps<L>,
    case: Option<Case>,
) -> Result<(), NoMemory>
    requires fits { IfSome case (Fits (shape_of (rules_of session.old).model) (rules_of session.old).ruled) }
    requires fewer { length listeners.old.items < 2 ^ 64 }
    ensures ok { IfOk result (λ _. (files : Option Files) → Settles (beside session.old (map (λ l. hearer (state l)) listeners.old.items) files steps.old) case (beside session.new (map (λ l. hearer (state l)) listeners.new.items) files steps.new)) }
    ensures few { OnErr result (ReachesAll (rules_of session.old) (held_of session.old) steps.old steps.new case) }
    ensures case { OnErr result (held_of session.new ≡ held_of session.old) }
    ensures still { OnErr result (reached_of session.new ≡ reached_of session.old) }
    ensures quiet { OnErr result (map (λ l. hearer (state l)) listeners.new.items ≡ map (λ l. hearer (state l)) listeners.old.items) }
    ensures base { rules_of session.new ≡ rules_of session.old }
{
    match case {
        None => Ok(()),
        Some(case) => {
            session.replace_case(alloc, case, listeners, steps)?;
            Ok(())
        }
    }
}

/// Loads a case from the file of this name, and answers what is printed of it.
#[tactic(auto, using(crate::proofs::Settling::loading))]
pub(crate) fn load_file<F: Shelf, L: Ledger>(
    alloc: Global,
    session: &mut Session<L>,
    shelf: &mut F,
    listeners: &mut Vec<Box<dyn Listener>>,
    steps: &mut Steps<L>,
    name: &Txt,
) -> Result<Vec<u8>, Halt>
    requires fewer { length listeners.old.items < 2 ^ 64 }
    ensures ok { IfOk result (λ t. LoadsFile (beside session.old (map (λ l. hearer (state l)) listeners.old.items) (F.files shelf.old) steps.old) name.now t.items (beside session.new (map (λ l. hearer (state l)) listeners.new.items) (F.files shelf.new) steps.new)) }
    ensures err { OnErr result (HaltsAt (F.keep_faults shelf.old) (F.keep_faults shelf.new) (commands.Load name.now) (beside session.old (map (λ l. hearer (state l)) listeners.old.items) (F.files shelf.old) steps.old) (beside session.new (map (λ l. hearer (state l)) listeners.new.items) (F.files shelf.new) steps.new)) }
    ensures cause { IfErr result (IsReplyCause (F.take_faults shelf.old) (F.take_faults shelf.new) (F.keep_faults shelf.old) (F.keep_faults shelf.new)) }
    ensures later_take { F.take_faults shelf.old ≤ F.take_faults shelf.new }
    ensures later_keep { F.keep_faults shelf.old ≤ F.keep_faults shelf.new }
    ensures base { rules_of session.new ≡ rules_of session.old }
{
    let loading = read_file(alloc, session.base(), shelf, name)?;
    settle(alloc, session, listeners, steps, loading.case)?;
    Ok(loading.text)
}
