// What an error is in words.
ghost use Rattle.std.specs.Prelude.{◌≡◌};
ghost use Rattle.opa_rules.specs.Faults.Words.{words_of, slip_words as slip_words_of};

use crate::faults::slip::Slip;
use opa_tree::RbKind;

/// What an error of this kind is, and what to look for.
pub(crate) fn words(kind: RbKind) -> &'static str
    ensures { result.now ≡ words_of kind }
{
    match kind {
        RbKind::Bytes => "this file isn't UTF-8",
        RbKind::Syntax => {
            "this can't be read: look for an indentation that jumps, a missing `and` or `or`, or a bracket"
        }
        RbKind::Name => "a phrase isn't declared, or names something else than is expected here",
        RbKind::Scope =>
            "this speaks of something that the rule's own case doesn't reach: use a list",
        RbKind::Kind => "two sorts of values don't go together, or a number isn't allowed here",
        RbKind::Twice => "this is declared, concluded or named a second time",
        RbKind::Cycle => "these conclusions need one another, so none of them can come first:",
        RbKind::Limit => "this is over a limit",
        RbKind::Missing => "there is no such file",
    }
}

/// What is said of a place that can't be read.
pub(crate) fn slip_words(slip: Slip) -> &'static str
    ensures { result.now ≡ slip_words_of slip }
{
    match slip {
        Slip::Head => {
            "this begins neither a declaration nor a rule: the first line of a rule has `=`, or ends with `if`"
        }
        Slip::Closing => "this bracket closes none",
        Slip::Opening => "this bracket isn't closed",
        Slip::Text => "this text isn't closed",
        Slip::Control => "this text has a tab in it, or another control character",
        Slip::Sign => "this sign has no meaning here",
        Slip::Missing => "something is missing behind this sign",
        Slip::Unjoined =>
            "there is no `and` or `or` at the end of this line, and another line follows",
        Slip::Dangling => "no line with the same indentation follows this `and` or `or`",
    }
}
