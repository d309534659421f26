// Lines of what isn't live any more go.
ghost use Rattle.std.specs.Prelude.{◌≡◌, [], None, cond};
ghost use Rattle.opa_case.specs.Live.{is_live};
ghost use Rattle.opa_model.specs.declared.ids.AttrId.{AttrId as Attr};
ghost use Rattle.opa_cells.specs.declared.instance.InstanceId.{InstanceId as Instance};
ghost use Rattle.opa_session.specs.Store.Stores.{kept_of, staged_of};

use crate::store::entry::Entry;
use crate::store::next::Next;
use crate::store::store::Store;
use opa_cells::{InstanceId, Keeps};
use std::sync::ledger::Ledger;

/// The entries of what is live stay.
#[derive(Clone, Copy)]
struct Living<'a, N: Next> {
    next: &'a N,
}

impl<'a, N: Next> Keeps<Entry> for Living<'a, N> {
    ghost use Rattle.opa_case.specs.Live.{is_live};

    ghost keeps = { λ k n i e. is_live (N.next k.next.now).live i };

    fn keeps(&self, _number: u32, inst: &InstanceId, _entry: &Entry) -> bool {
        self.next.live(inst)
    }
}

impl<L: Ledger> Store<L> {
    /// Takes out the lines of what isn't live in a case. It takes no memory.
    pub fn keep_live<N: Next>(&mut self, next: &N)
        requires { self.old.slots ≡ [] }
        ensures kept { (a : Attr) (i : Instance) →
            kept_of self.new a i ≡ cond (is_live (N.next next.now).live i) (kept_of self.old a i) None }
        ensures staged { self.new.slots ≡ [] }
    {
        self.entries.retain(&Living { next });
    }
}
