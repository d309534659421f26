// Lines of a group and the words that join them.
ghost use Rattle.std.specs.Prelude.{◌≡◌, IfSome};
ghost use Rattle.std.specs.List.{All};
ghost use Rattle.opa_words.specs.Places.{IsWithin};
ghost use Rattle.opa_rules.specs.Faults.Marks.{IsMark};
ghost use Rattle.opa_rules.specs.Faults.Joints.{goes_on_at as goes_on_at_of, joins as joins_of, is_nothing as is_nothing_of, is_below as is_below_of, is_item as is_item_of, joint_slip as joint_slip_of, at_word as at_word_of, at_last as at_last_of, end_slip as end_slip_of};

use crate::faults::slip::{Part, Slip};
use opa_io::front;
use opa_parse::{Ending, back, ending_of};
use opa_sentence::Cursor;
use opa_words::{BlockLine, Token};

/// Whether the next line is of this level.
fn goes_on_at(level: u32, later: &[BlockLine]) -> bool
    ensures { result ≡ goes_on_at_of level later.now }
{
    match front(later) {
        None => false,
        Some((next, _)) => next.level == level,
    }
}

fn joins(ending: Ending) -> bool
    ensures { result ≡ joins_of ending }
{
    matches!(ending, Ending::And | Ending::Or)
}

fn is_nothing(ending: Ending) -> bool
    ensures { result ≡ is_nothing_of ending }
{
    matches!(ending, Ending::Nothing)
}

fn is_below(part: Part) -> bool
    ensures { result ≡ is_below_of part }
{
    matches!(part, Part::Case | Part::Item)
}

fn is_item(part: Part) -> bool
    ensures { result ≡ is_item_of part }
{
    matches!(part, Part::Item)
}

/// What is wrong with the end of a line, if the next one is of its level or isn't.
fn joint_slip(part: Part, ending: Ending, more: bool) -> Option<Slip>
    ensures { result ≡ joint_slip_of part ending more }
{
    if is_below(part) && joins(ending) && !more {
        Some(Slip::Dangling)
    } else if is_item(part) && is_nothing(ending) && more {
        Some(Slip::Unjoined)
    } else {
        None
    }
}

fn at_word(text: &str, slip: Slip, token: Token) -> u32
    requires { IsWithin text.now token }
    ensures at { result ≡ at_word_of slip token }
    ensures within { IsMark text.now (slip, result) }
{
    match slip {
        Slip::Unjoined => token.end,
        _ => token.start,
    }
}

/// Where the mark is, at the last word.
#[tactic(auto, using(crate::proofs::JointLaws::last_word))]
fn at_last(text: &str, slip: Slip, tokens: &[Token]) -> Option<(Slip, u32)>
    requires { All (IsWithin text.now) tokens.now }
    ensures at { result ≡ at_last_of slip tokens.now }
    ensures within { IfSome result (IsMark text.now) }
{
    match back(tokens) {
        None => None,
        Some((_, last)) => Some((slip, at_word(text, slip, *last))),
    }
}

/// What is wrong at the end of a line of this level, before these lines.
pub(crate) fn end_slip(
    part: Part,
    level: u32,
    text: &str,
    tokens: &[Token],
    later: &[BlockLine],
) -> Option<(Slip, u32)>
    requires { All (IsWithin text.now) tokens.now }
    ensures at { result ≡ end_slip_of part level text.now tokens.now later.now }
    ensures within { IfSome result (IsMark text.now) }
{
    let ending = ending_of(Cursor::new(text, tokens));
    match joint_slip(part, ending, goes_on_at(level, later)) {
        None => None,
        Some(slip) => at_last(text, slip, tokens),
    }
}
