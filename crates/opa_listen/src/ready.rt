// Listeners get ready for changes.
ghost use Rattle.std.specs.Prelude.{◌≡◌, ◌<◌, ◌^◌, map, length, IfOk, OnOk};
ghost use Rattle.std.specs.List.{AllZip, All};
ghost use Rattle.opa_listen.specs.Listening.{is_watched, watched_of};
ghost use Rattle.opa_listen.specs.Telling.{HasRoomOf, IsReady, each_watched};

use crate::{Change, Listener};
use opa_io::NoMemory;
use opa_model::AttrId;
use std::alloc::Global;

fn wants(listener: &Box<dyn Listener>, attr: AttrId) -> bool
    ensures { result ≡ is_watched (state listener.now).watched attr }
{
    listener.wants(attr)
}

/// How many of the changes a listener watches.
fn watched_count(listener: &Box<dyn Listener>, changes: &[Change]) -> usize
    ensures { result ≡ length (watched_of (state listener.now).watched changes.now) }
{
    let mut count = 0;
    for change in changes {
        if wants(listener, change.attr) {
            count += 1;
        }
    }
    count
}

/// The changes that a listener watches.
fn watched(
    alloc: Global,
    listener: &Box<dyn Listener>,
    changes: &[Change],
) -> Result<Vec<Change>, NoMemory>
    ensures { IfOk result (λ v. v.items ≡ watched_of (state listener.now).watched changes.now) }
{
    let mut found = Vec::new(alloc);
    for change in changes {
        if wants(listener, change.attr) {
            found.push(change.copy(alloc)?)?;
        }
    }
    Ok(found)
}

/// Asks a listener for room.
fn ready_one(listener: &mut Box<dyn Listener>, changes: &[Change]) -> Result<(), NoMemory>
    ensures room { OnOk result (IsReady changes.now (state listener.new)) }
    ensures same { HasRoomOf (state listener.old) (state listener.new) }
{
    match u32::try_from(watched_count(listener, changes)) {
        Ok(count) => listener.ready(count),
        Err(_) => Err(NoMemory),
    }
}

/// Asks each listener in turn for room for those of the changes that it watches. Whatever is answered, nothing else
/// than their room differs.
pub fn ready_all(listeners: &mut Vec<Box<dyn Listener>>, changes: &[Change]) -> Result<(), NoMemory>
    // It holds of each vector, and tells the checker that no listener is made here.
    requires { length listeners.old.items < 2 ^ 64 }
    ensures room { OnOk result (All (IsReady changes.now) (map (λ l. state l) listeners.new.items)) }
    ensures same { AllZip HasRoomOf (map (λ l. state l) listeners.old.items) (map (λ l. state l) listeners.new.items) }
{
    for place in 0..listeners.len() {
        ready_one(&mut listeners[place], changes)?;
    }
    Ok(())
}

/// For each listener those of the changes that it watches.
pub fn copies(
    alloc: Global,
    listeners: &Vec<Box<dyn Listener>>,
    changes: &[Change],
) -> Result<Vec<Vec<Change>>, NoMemory>
    ensures { IfOk result (λ v.
        map (λ w. w.items) v.items ≡ each_watched changes.now (map (λ l. state l) listeners.now.items)) }
{
    let mut all = Vec::new(alloc);
    for listener in listeners {
        all.push(watched(alloc, listener, changes)?)?;
    }
    Ok(all)
}
