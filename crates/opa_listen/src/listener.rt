// Who is told of changes.
use crate::Change;
use opa_io::NoMemory;
use opa_model::AttrId;
use std::alloc::Global;

/// Who is told of changes. Contracts see which attributes it watches (none stands for all), which changes it keeps, for
/// how many more it has room, and in which style it speaks at the end. No call changes what it watches or its style.
pub trait Listener: Drop {
    ghost use Rattle.std.specs.Prelude.{◌≡◌, ◌≤◌, ◌++◌, ◌∷◌, [], OnOk, OnErr, true};
    ghost use Rattle.opa_listen.specs.Listening.{ListenerView, is_watched, last_words};
    ghost use Rattle.opa_listen.specs.Telling.{HasRoomOf, keeping};

    ghost state: { Self → ListenerView };

    /// Whether it watches the attribute.
    fn wants(&self, attr: AttrId) -> bool
        ensures { result ≡ is_watched (state self.now).watched attr };

    /// Makes room for so many changes. Whatever is answered, it may have more room than before.
    fn ready(&mut self, n: u32) -> Result<(), NoMemory>
        ensures room { OnOk result (n ≤ (state self.new).spare) }
        ensures same { HasRoomOf (state self.old) (state self.new) };

    /// Keeps a change of an attribute that it watches. It takes no memory.
    fn note(&mut self, change: Change)
        requires room { 1 ≤ (state self.old).spare }
        requires watched { is_watched (state self.old).watched change.attr ≡ true }
        ensures { HasRoomOf (keeping (change ∷ []) (state self.old)) (state self.new) };

    /// Says its last words.
    fn closing(&self, alloc: Global, out: &mut Vec<u8>) -> Result<(), NoMemory>
        ensures ok { OnOk result (out.new.items ≡ out.old.items ++ last_words (state self.now)) }
        ensures err { OnErr result (out.new.items ≡ out.old.items) };
}
