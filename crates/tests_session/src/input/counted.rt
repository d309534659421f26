// Sessions whose steps are counted on a ledger of their own.
ghost use Rattle.std.specs.Prelude.{◌≡◌, ◌<◌};
ghost use Rattle.opa_case.specs.Fits.{Fits};
ghost use Rattle.opa_case.specs.Laws.{IsDeclared};
ghost use Rattle.opa_case.specs.Shapes.{shape_of};
ghost use Rattle.opa_session.specs.Infer.Sessions.{rules_of};

use opa_case::{Case, ChangeCommand, Refusal};
use opa_io::{NoMemory, Steps};
use opa_listen::Listener;
use opa_session::Session;
use std::alloc::Global;
use std::marker::Brand;
use std::sync::ledger::{Blank, Ledger};
use std::test::Fail;

/// What is tried of sessions: they are made where the steps are counted, and don't leave it.
pub trait Trial<R> {
    fn found<L: Ledger>(&self, alloc: Global, steps: &mut Steps<L>) -> Result<R, Fail>;
}

/// What is found on a ledger of its own.
pub fn tried<R, T: Trial<R>>(alloc: Global, trial: &T) -> Result<R, Fail> {
    tried_on::<R, T, Brand>(alloc, Blank::new(1), trial)
}

fn tried_on<R, T: Trial<R>, L: Ledger>(alloc: Global, blank: Blank, trial: &T) -> Result<R, Fail>
    requires name { blank.name ≡ L.name }
    requires parts { blank.parts ≡ L.parts }
    requires some { 0 < blank.parts }
{
    let mut steps: Steps<L> = Steps::open(blank);
    trial.found(alloc, &mut steps)
}

/// Makes a change of which listeners are told. The rulebase stays.
pub fn heard<L: Ledger>(
    alloc: Global,
    session: &mut Session<L>,
    change: ChangeCommand,
    listeners: &mut Vec<Box<dyn Listener>>,
    steps: &mut Steps<L>,
) -> Result<u32, Refusal>
    requires { IsDeclared (shape_of (rules_of session.old).model) change }
    ensures { rules_of session.new ≡ rules_of session.old }
{
    // The count shows that there are fewer than 2^64.
    let _count = listeners.len();
    session.apply(alloc, change, listeners, steps)
}

/// Makes a change that nobody is told of. The rulebase stays.
pub fn applied<L: Ledger>(
    alloc: Global,
    session: &mut Session<L>,
    change: ChangeCommand,
    steps: &mut Steps<L>,
) -> Result<u32, Refusal>
    requires { IsDeclared (shape_of (rules_of session.old).model) change }
    ensures { rules_of session.new ≡ rules_of session.old }
{
    let mut nobody = Vec::new(alloc);
    heard(alloc, session, change, &mut nobody, steps)
}

/// Holds another case, which nobody is told of. The rulebase stays.
pub fn replaced<L: Ledger>(
    alloc: Global,
    session: &mut Session<L>,
    case: Case,
    steps: &mut Steps<L>,
) -> Result<u32, NoMemory>
    requires { Fits (shape_of (rules_of session.old).model) (rules_of session.old).ruled case }
    ensures { rules_of session.new ≡ rules_of session.old }
{
    let mut nobody = Vec::new(alloc);
    session.replace_case(alloc, case, &mut nobody, steps)
}
