// What the definitions of what is told come to.
ghost use Rattle.opa_reply.specs.Reporting.Laws as law;

use opa_report::at_most_one;

/// A point's report has one text.
pub fn one_report_told()
    ensures { law.OneReportTold }
{
    at_most_one();
}
