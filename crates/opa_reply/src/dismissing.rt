// A listener is dismissed.
ghost use Rattle.std.specs.Prelude.{◌≡◌, ◌<◌, ◌^◌, length, map, IfOk, OnErr};
ghost use Rattle.opa_listen.specs.Hearing.{hearer};
ghost use Rattle.opa_reply.specs.Dismissals.{IsDismissed};
ghost use Rattle.opa_reply.specs.Refused.{refused_dismiss};

use opa_io::NoMemory;
use opa_listen::{Listener, dismiss};
use std::alloc::Global;

/// What is said where no listener has the number.
fn no_listener(alloc: Global) -> Result<Vec<u8>, NoMemory>
    ensures { IfOk result (λ t. t.items ≡ refused_dismiss) }
{
    let text = b"refused: dismiss\n".to_vec(alloc)?;
    Ok(text)
}

/// A listener says its last words and goes; where no listener has the number, that is refused.
#[tactic(auto, using(crate::proofs::Leaving::dismissing))]
pub(crate) fn dismissed(
    alloc: Global,
    listeners: &mut Vec<Box<dyn Listener>>,
    number: u32,
) -> Result<Vec<u8>, NoMemory>
    requires fewer { length listeners.old.items < 2 ^ 64 }
    ensures ok { IfOk result (λ t. IsDismissed (map (λ l. hearer (state l)) listeners.old.items) number t.items (map (λ l. hearer (state l)) listeners.new.items)) }
    ensures err { OnErr result (map (λ l. hearer (state l)) listeners.new.items ≡ map (λ l. hearer (state l)) listeners.old.items) }
{
    let place = number as usize;
    if place < listeners.len() {
        let words = dismiss(alloc, listeners, place)?;
        Ok(words)
    } else {
        let text = no_listener(alloc)?;
        Ok(text)
    }
}
