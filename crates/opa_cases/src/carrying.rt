// What the rest of a line asks for is carried out.
ghost use Rattle.std.specs.Prelude.{◌≡◌, false, IfOk, OnOk};
ghost use Rattle.opa_session.specs.Infer.Sessions.{rules_of};
ghost use Rattle.opa_cases.specs.Holding.{open_of, PileFits};
ghost use Rattle.opa_cases.specs.Orders.{IsOrderInRange};
ghost use Rattle.opa_cases.specs.Scripts.{Carries, Responds};

use crate::changes::do_command;
use crate::kept::Current;
use crate::orders::Order;
use crate::supposing::{suppose, undo};
use crate::texts::told;
use opa_io::{NoMemory, Steps};
use opa_reply::refused_command;
use opa_script::CmdFault;
use opa_session::Session;
use std::alloc::Global;
use std::sync::ledger::Ledger;

/// What a line of one case prints, and whether it closes the case.
#[derive(Drop)]
pub(crate) struct Said {
    pub(crate) text: Vec<u8>,
    pub(crate) closed: bool,
}

/// What a line prints that leaves its case open.
fn left_open(text: Vec<u8>) -> Said
    ensures text { result.text ≡ text }
    ensures closed { result.closed ≡ false }
{
    Said {
        text,
        closed: false,
    }
}

/// Carries out an order of one case.
fn carry_out<L: Ledger>(
    alloc: Global,
    session: &mut Session<L>,
    current: &mut Current,
    steps: &mut Steps<L>,
    order: Order,
) -> Result<Said, NoMemory>
    requires order { IsOrderInRange (rules_of session.old).model order }
    requires fits { PileFits (rules_of session.old) current.old.pile }
    ensures ok { IfOk result (λ s. Carries (rules_of session.old) (open_of session.old current.old) order s.text.items s.closed (open_of session.new current.new)) }
    ensures fits { OnOk result (PileFits (rules_of session.old) current.new.pile) }
    ensures base { rules_of session.new ≡ rules_of session.old }
    ensures name { current.new.name ≡ current.old.name }
{
    match order {
        Order::Nothing => Ok(left_open(Vec::new(alloc))),
        Order::Suppose => {
            let text = suppose(alloc, session, current)?;
            Ok(left_open(text))
        }
        Order::Undo => {
            let text = undo(alloc, session, current, steps)?;
            Ok(left_open(text))
        }
        Order::Close => {
            let text = told(alloc, b"closed\n")?;
            Ok(Said { text, closed: true })
        }
        Order::Does(command) => {
            let text = do_command(alloc, session, current, steps, command)?;
            Ok(left_open(text))
        }
    }
}

/// Carries out what the rest of a line was read as, or refuses it.
pub(crate) fn respond<L: Ledger>(
    alloc: Global,
    session: &mut Session<L>,
    current: &mut Current,
    steps: &mut Steps<L>,
    read: Result<Order, CmdFault>,
) -> Result<Said, NoMemory>
    requires order { IfOk read (IsOrderInRange (rules_of session.old).model) }
    requires fits { PileFits (rules_of session.old) current.old.pile }
    ensures ok { IfOk result (λ s. Responds (rules_of session.old) (open_of session.old current.old) read s.text.items s.closed (open_of session.new current.new)) }
    ensures fits { OnOk result (PileFits (rules_of session.old) current.new.pile) }
    ensures base { rules_of session.new ≡ rules_of session.old }
    ensures name { current.new.name ≡ current.old.name }
{
    match read {
        Ok(order) => carry_out(alloc, session, current, steps, order),
        Err(fault) => {
            let text = refused_command(alloc, fault)?;
            Ok(left_open(text))
        }
    }
}
