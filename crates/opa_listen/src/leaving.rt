// A listener goes.
ghost use Rattle.std.specs.Prelude.{◌≡◌, ◌<◌, length, map, IfOk, OnOk, OnErr, Some, slice_get};
ghost use Rattle.std.specs.List.{remove};
ghost use Rattle.std.specs.Option.{option_map};
ghost use Rattle.opa_listen.specs.Listening.{last_words};

use crate::Listener;
use opa_io::NoMemory;
use std::alloc::Global;

/// What a listener says at the end.
fn words_of(alloc: Global, listener: &Box<dyn Listener>) -> Result<Vec<u8>, NoMemory>
    ensures { IfOk result (λ w. w.items ≡ last_words (state listener.now)) }
{
    let mut out = Vec::new(alloc);
    listener.closing(alloc, &mut out)?;
    Ok(out)
}

/// Takes a listener out and drops it, once its last words are made, which are answered. Without memory for them all
/// listeners stay.
pub fn dismiss(
    alloc: Global,
    listeners: &mut Vec<Box<dyn Listener>>,
    n: usize,
) -> Result<Vec<u8>, NoMemory>
    requires { n < length listeners.old.items }
    ensures words { IfOk result (λ w.
        option_map (λ l. last_words (state l)) (slice_get listeners.old.items n) ≡ Some w.items) }
    ensures others { OnOk result (listeners.new.items ≡ remove listeners.old.items n) }
    ensures stay { OnErr result (listeners.new.items ≡ listeners.old.items) }
{
    let words = words_of(alloc, &listeners[n])?;
    let _gone = listeners.remove(n);
    Ok(words)
}
