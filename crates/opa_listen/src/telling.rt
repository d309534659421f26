// Listeners are told of changes.
ghost use Rattle.std.specs.Prelude.{◌≡◌, ◌≤◌, ◌∷◌, [], true, map};
ghost use Rattle.opa_listen.specs.Listening.{is_watched};
ghost use Rattle.std.specs.List.{AllZip};
ghost use Rattle.opa_listen.specs.Telling.{HasRoomOf, keeping, CanKeep, EachKeeps};

use crate::{Change, Listener};

fn note(listener: &mut Box<dyn Listener>, change: Change)
    requires room { 1 ≤ (state listener.old).spare }
    requires watched { is_watched (state listener.old).watched change.attr ≡ true }
    ensures { HasRoomOf (keeping (change ∷ []) (state listener.old)) (state listener.new) }
{
    listener.note(change);
}

/// Tells one listener, change by change.
fn tell_one(listener: &mut Box<dyn Listener>, changes: Vec<Change>)
    requires { CanKeep changes.items (state listener.old) }
    ensures { HasRoomOf (keeping changes.items (state listener.old)) (state listener.new) }
{
    for change in changes {
        note(listener, change);
    }
}

/// Tells each listener its own list of changes, for which it has room. It takes no memory.
pub fn tell(listeners: &mut Vec<Box<dyn Listener>>, changes: Vec<Vec<Change>>)
    requires { AllZip CanKeep (map (λ v. v.items) changes.items) (map (λ l. state l) listeners.old.items) }
    ensures { EachKeeps (map (λ v. v.items) changes.items) (map (λ l. state l) listeners.old.items)
        (map (λ l. state l) listeners.new.items) }
{
    let mut place = 0;
    for list in changes {
        tell_one(&mut listeners[place], list);
        place += 1;
    }
}
