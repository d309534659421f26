// The session goes from one case to another.
ghost use Rattle.std.specs.Prelude.{◌≡◌, false, None, IfOk, IfSome, OnOk, is_some};
ghost use Rattle.std.specs.FinMap as map;
ghost use Rattle.opa_case.specs.Cases.{no_case};
ghost use Rattle.opa_session.specs.Infer.Sessions.{rules_of};
ghost use Rattle.opa_cases.specs.Caseload.{is_full as is_full_of};
ghost use Rattle.opa_cases.specs.Holding.{opens_of, open_of, current_by, OpenFits, PileFits, IsTurned};
ghost use Rattle.opa_cases.specs.Scripts.{fresh, opened};

use crate::caseload::Caseload;
use crate::kept::{Current, OpenCase};
use opa_case::{Case, empty_fits};
use opa_io::limits::MOST_CASES;
use opa_io::{List, NoMemory, Steps, Txt};
use opa_listen::Listener;
use opa_mean::Held;
use opa_tree::Rulebase;
use std::alloc::Global;
use std::sync::ledger::Ledger;

/// A case that was just opened.
fn fresh(alloc: Global, base: &Rulebase) -> OpenCase
    ensures fresh { result ≡ fresh }
    ensures fits { OpenFits base.now result }
{
    // The count shows the model's form.
    let _count = base.model.attribute_count();
    empty_fits();
    OpenCase {
        case: Case::new(alloc),
        reached: 0,
        pile: List::new(alloc),
    }
}

/// The case that was found, or one that was just opened.
fn found_or_fresh(alloc: Global, base: &Rulebase, found: Option<OpenCase>) -> OpenCase
    requires fits { IfSome found (OpenFits base.now) }
    ensures opened { result ≡ opened found }
    ensures fits { OpenFits base.now result }
{
    match found {
        Some(open_case) => open_case,
        None => fresh(alloc, base),
    }
}

impl<L: Ledger> Caseload<L> {
    /// Whether a name is open.
    fn has(&self, name: &Txt) -> bool
        ensures { result ≡ is_some (map.get (opens_of self.now.session self.now.current self.now.others) name.now) }
    {
        match &self.current {
            None => self.others.has(name),
            Some(current) => current.name == *name || self.others.has(name),
        }
    }

    /// How many names are open.
    fn count(&self) -> usize
        ensures { result ≡ map.len (opens_of self.now.session self.now.current self.now.others) }
    {
        match &self.current {
            None => self.others.len(),
            Some(_) => self.others.len() + 1,
        }
    }

    /// Whether no further name may be opened, and this one isn't open.
    #[tactic(auto, using(crate::proofs::RoomLaws::room_left, crate::proofs::RoomLaws::no_room))]
    pub(crate) fn is_full(&self, name: &Txt) -> bool
        ensures { result ≡ is_full_of (opens_of self.now.session self.now.current self.now.others) name.now }
    {
        // The number first: it is there, and a name is looked up.
        if self.count() < MOST_CASES {
            return false;
        }
        !self.has(name)
    }

    /// Lays the case that the session holds beside the others.
    fn lay_down(&mut self, alloc: Global, current: Current) -> Result<(), NoMemory>
        requires none { self.old.current ≡ None }
        requires fits { PileFits (rules_of self.old.session) current.pile }
        ensures ok { OnOk result (self.new.others ≡ map.insert self.old.others current.name (open_of self.old.session current)) }
        ensures session { self.new.session ≡ self.old.session }
        ensures none { self.new.current ≡ None }
    {
        let case = self.session.case().copy(alloc)?;
        let Current {
            name,
            reached,
            pile,
        } = current;
        self.others.insert(
            alloc,
            name,
            OpenCase {
                case,
                reached,
                pile,
            },
        )
    }

    /// Takes a case from the others, or opens it, and brings it into the session.
    fn take_up(
        &mut self,
        alloc: Global,
        name: Txt,
        steps: &mut Steps<L>,
    ) -> Result<Current, NoMemory>
        requires none { self.old.current ≡ None }
        ensures ok { IfOk result (IsTurned name self.old.others self.new.session self.new.others) }
        ensures fits { IfOk result (λ c. PileFits (rules_of self.old.session) c.pile) }
        ensures base { rules_of self.new.session ≡ rules_of self.old.session }
        ensures none { self.new.current ≡ None }
    {
        let found = self.others.take(&name);
        let OpenCase {
            case,
            reached,
            pile,
        } = found_or_fresh(alloc, self.session.base(), found);
        let mut nobody: Vec<Box<dyn Listener>> = Vec::new(alloc);
        self.session.replace_case(alloc, case, &mut nobody, steps)?;
        Ok(Current {
            name,
            reached,
            pile,
        })
    }

    /// Brings the case of a name into the session, and takes it out of what is open.
    pub(crate) fn turn_to(
        &mut self,
        alloc: Global,
        name: &Txt,
        steps: &mut Steps<L>,
    ) -> Result<Current, NoMemory>
        ensures ok { IfOk result (IsTurned name.now (opens_of self.old.session self.old.current self.old.others) self.new.session self.new.others) }
        ensures fits { IfOk result (λ c. PileFits (rules_of self.old.session) c.pile) }
        ensures base { rules_of self.new.session ≡ rules_of self.old.session }
        ensures none { self.new.current ≡ None }
    {
        match self.current.take() {
            None => {
                let taken = self.take_up(alloc, name.copy(alloc)?, steps)?;
                Ok(taken)
            }
            Some(current) => {
                if current.name == *name {
                    return Ok(current);
                }
                self.lay_down(alloc, current)?;
                let taken = self.take_up(alloc, name.copy(alloc)?, steps)?;
                Ok(taken)
            }
        }
    }

    /// Keeps the session's case open, unless it was closed.
    pub(crate) fn keep(&mut self, current: Current, closed: bool)
        requires none { self.old.current ≡ None }
        requires fits { PileFits (rules_of self.old.session) current.pile }
        requires apart { is_some (map.get self.old.others current.name) ≡ false }
        ensures current { self.new.current ≡ current_by closed current }
        ensures session { self.new.session ≡ self.old.session }
        ensures others { self.new.others ≡ self.old.others }
    {
        if !closed {
            self.current = Some(current);
        }
    }
}
