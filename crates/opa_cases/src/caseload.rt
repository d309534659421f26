// What is held of many cases.
ghost use Rattle.std.proofs.Props.{props};
ghost use Rattle.opa_case.specs.Cases.{coded_lists, coded_population};
ghost use Rattle.opa_cells.specs.Instances.{coded_instance};
ghost use Rattle.opa_session.specs.Infer.Sessions.{rules_of};
ghost use Rattle.opa_cases.specs.Holding.{AllFit, CurrentFits, IsApart};

use crate::kept::{Current, OpenCase};
use crate::name_map::Named;
use opa_session::Session;
use std::sync::ledger::Ledger;

/// One session, which goes from one case to another, and the other cases that are open.
#[derive(Drop)]
pub struct Caseload<L: Ledger> {
    pub(crate) session: Session<L>,
    pub(crate) current: Option<Current>,
    pub(crate) others: Named<OpenCase>,
    ghost apart: { IsApart current others },
    ghost fits: { AllFit (rules_of session) others } by { Prim.hlevel (props, coded_lists, coded_population, coded_instance) },
    ghost stands: { CurrentFits (rules_of session) current } by { Prim.hlevel (props, coded_lists, coded_population, coded_instance) },
}
