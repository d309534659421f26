// Suppositions: a case is kept, and comes back.
ghost use Rattle.std.specs.Prelude.{◌≡◌, ◌++◌, ◌∷◌, [], IfOk, OnOk};
ghost use Rattle.opa_session.specs.Infer.Sessions.{rules_of, held_of};
ghost use Rattle.opa_cases.specs.Holding.{open_of, FitsRules, PileFits};
ghost use Rattle.opa_cases.specs.Scripts.{Supposes, Undoes, kept_as, opened_as};

use crate::kept::{Current, KeptCase};
use crate::texts::told;
use opa_io::limits::MOST_SUPPOSITIONS;
use opa_io::{NoMemory, Steps};
use opa_listen::Listener;
use opa_mean::Held;
use opa_session::Session;
use std::alloc::Global;
use std::sync::ledger::Ledger;

/// Keeps the case on the pile.
fn keep<L: Ledger>(
    alloc: Global,
    session: &Session<L>,
    current: &mut Current,
) -> Result<(), NoMemory>
    ensures ok { OnOk result (current.new.pile ≡ current.old.pile ++ kept_as (held_of session.now) current.old.reached ∷ []) }
    ensures case { FitsRules (rules_of session.now) (held_of session.now) }
    ensures reached { current.new.reached ≡ current.old.reached }
    ensures name { current.new.name ≡ current.old.name }
{
    let case = session.case().copy(alloc)?;
    current.pile.push(KeptCase {
        case,
        reached: current.reached,
    })
}

/// Keeps the case; what is changed from now on is supposed.
pub(crate) fn suppose<L: Ledger>(
    alloc: Global,
    session: &Session<L>,
    current: &mut Current,
) -> Result<Vec<u8>, NoMemory>
    requires fits { PileFits (rules_of session.now) current.old.pile }
    ensures ok { IfOk result (λ t. Supposes (open_of session.now current.old) t.items (open_of session.now current.new)) }
    ensures fits { OnOk result (PileFits (rules_of session.now) current.new.pile) }
    ensures name { current.new.name ≡ current.old.name }
{
    if current.pile.len() >= MOST_SUPPOSITIONS {
        let text = told(alloc, b"refused: suppose\n")?;
        return Ok(text);
    }
    keep(alloc, session, current)?;
    let text = told(alloc, b"supposed\n")?;
    Ok(text)
}

/// Takes the case that was kept last as the case again.
#[tactic(auto, using(crate::proofs::FitLaws::piles))]
pub(crate) fn undo<L: Ledger>(
    alloc: Global,
    session: &mut Session<L>,
    current: &mut Current,
    steps: &mut Steps<L>,
) -> Result<Vec<u8>, NoMemory>
    requires fits { PileFits (rules_of session.old) current.old.pile }
    ensures ok { IfOk result (λ t. Undoes (open_of session.old current.old) t.items (open_of session.new current.new)) }
    ensures fits { OnOk result (PileFits (rules_of session.old) current.new.pile) }
    ensures base { rules_of session.new ≡ rules_of session.old }
    ensures name { current.new.name ≡ current.old.name }
{
    match current.pile.pop() {
        None => {
            let text = told(alloc, b"refused: undo\n")?;
            Ok(text)
        }
        Some(kept) => {
            bring(alloc, session, kept, current, steps)?;
            let text = told(alloc, b"undone\n")?;
            Ok(text)
        }
    }
}

/// Puts a case that was kept in the place of the one that is held.
fn bring<L: Ledger>(
    alloc: Global,
    session: &mut Session<L>,
    kept: KeptCase,
    current: &mut Current,
    steps: &mut Steps<L>,
) -> Result<(), NoMemory>
    requires fits { FitsRules (rules_of session.old) kept.case }
    ensures ok { OnOk result (open_of session.new current.new ≡ opened_as kept.case kept.reached current.old.pile) }
    ensures base { rules_of session.new ≡ rules_of session.old }
    ensures name { current.new.name ≡ current.old.name }
    ensures pile { current.new.pile ≡ current.old.pile }
{
    let KeptCase { case, reached } = kept;
    let mut nobody: Vec<Box<dyn Listener>> = Vec::new(alloc);
    session.replace_case(alloc, case, &mut nobody, steps)?;
    current.reached = reached;
    Ok(())
}
