// Nothing else can be printed.
ghost use Rattle.opa_script.specs.Laws.{RefusedOrRead};
ghost use Rattle.opa_reply.specs.Interviews.{interview};
ghost use Rattle.opa_reply.specs.Replies.{conversation};
ghost use Rattle.opa_laws.specs.Decided.Laws as law;

use opa_reply::one_report_told;
use opa_session::told_once;

/// A line has at most one fault but for want of memory, and a line that is a command has none.
pub fn one_command_fault()
    ensures fault { law.OneCommandFault }
    ensures apart { RefusedOrRead }
    ensures reply { law.OneReplyFault }
{}

/// Where files are told, loading a file prints one text, and loads one case or none.
pub fn one_loaded()
    ensures { law.OneLoaded }
{}

/// Where files are told, a line of a run prints one text and leaves one thing; the rulebase stays, and files are told again.
pub fn one_reply()
    ensures reply { law.OneReply conversation }
    ensures base { law.SameBase conversation }
    ensures told { law.StaysTold conversation }
{
    told_once();
    one_report_told();
}

/// The same of a line of an interview.
pub fn one_answer()
    ensures reply { law.OneReply interview }
    ensures base { law.SameBase interview }
    ensures told { law.StaysTold interview }
{
    told_once();
    one_report_told();
}

/// Where files are told, lines have one transcript, and leave one thing.
pub fn one_transcript()
    ensures run { law.OneTranscript conversation }
    ensures interview { law.OneTranscript interview }
{
    one_reply();
    one_answer();
}
