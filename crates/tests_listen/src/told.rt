// Listeners are told, and go.
use crate::changes::first_of_two;
use crate::fussy::Fussy;
use opa_io::{List, NoMemory};
use opa_listen::{Change, Journal, Listener, Watch, copies, dismiss, ready_all, tell};
use opa_model::AttrId;
use std::alloc::Global;
use std::test::Fail;

/// Tells all listeners, where each gets ready.
#[tactic(auto, using(opa_listen::proofs::Readiness::ready_can_tell))]
fn tell_all(
    alloc: Global,
    listeners: &mut Vec<Box<dyn Listener>>,
    changes: &[Change],
) -> Result<(), NoMemory> {
    ready_all(listeners, changes)?;
    let lists = copies(alloc, listeners, changes)?;
    tell(listeners, lists);
    Ok(())
}

/// The last words of the listener at the front, which goes.
fn first_words(alloc: Global, listeners: &mut Vec<Box<dyn Listener>>) -> Result<Vec<u8>, NoMemory> {
    if listeners.is_empty() {
        return Ok(Vec::new(alloc));
    }
    dismiss(alloc, listeners, 0)
}

/// A watch on attribute 2.
fn second_watched(alloc: Global) -> Result<Watch, Fail> {
    let mut attrs = Vec::new(alloc);
    attrs.push(AttrId(2))?;
    Ok(Watch::new(alloc, List::from_vec(attrs)))
}

#[test]
fn each_keeps_what_it_watches(rt: HostRuntime) -> Result<(), Fail> {
    let mut listeners: Vec<Box<dyn Listener>> = Vec::new(rt.alloc());
    listeners.push(Box::new(rt.alloc(), Journal::new(rt.alloc()))?)?;
    listeners.push(Box::new(rt.alloc(), second_watched(rt.alloc())?)?)?;
    listeners.push(Box::new(rt.alloc(), Fussy::new(rt.alloc(), 2, 1))?)?;
    let changes = first_of_two(rt.alloc(), 2)?;
    tell_all(rt.alloc(), &mut listeners, &changes)?;
    assert!(rt; ready_all(&mut listeners, &changes).is_err());
    let journal = first_words(rt.alloc(), &mut listeners)?;
    assert_eq!(rt;
        journal.as_slice(),
        "the claimant is entitled on 1600-01-01: unknown to true\nthe claimant is exempt on 1601-01-01: true to false\n".as_bytes()
    );
    let watch = first_words(rt.alloc(), &mut listeners)?;
    assert_eq!(rt;
        watch.as_slice(),
        "1 changes, last: the claimant is exempt on 1601-01-01: true to false\n".as_bytes()
    );
    assert_eq!(rt; listeners.len(), 1);
    Ok(())
}
