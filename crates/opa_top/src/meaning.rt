// What is shown means what it says.
ghost use Rattle.opa_top.specs.Meaning.{Meaning};

use opa_laws::{held_is_printable, opened_is_printable, reports_are_verified};
use opa_mean::{
    asked, determination, finished, line_is_one, relevant, settled_stays, states_are_exact,
    supported,
};

/// The laws of the words that transcripts are made of.
pub(crate) fn shown_is_meant()
    ensures { Meaning }
{
    opened_is_printable();
    held_is_printable();
    determination();
    line_is_one();
    states_are_exact();
    settled_stays();
    supported();
    reports_are_verified();
    asked();
    relevant();
    finished();
}
