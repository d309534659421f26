// The line that is told of an attribute for an instance.
ghost use Rattle.std.specs.Prelude.{◌≡◌, is_some, IfSome};
ghost use Rattle.std.specs.FinMap.{get};
ghost use Rattle.std.specs.Option.{option_copied};
ghost use Rattle.opa_date.specs.declared.TheConstants.{DAYS};
ghost use Rattle.opa_line.specs.Lines.{IsLine, StandsFor};
ghost use Rattle.opa_mean.specs.Holding.{has_line};
ghost use Rattle.opa_mean.specs.Rulebases.{IsOf, value_at};
ghost use Rattle.opa_session.specs.Infer.Ready.{IsFound};

use crate::store::Next;
use opa_case::InstanceId;
use opa_line::Line;
use opa_model::AttrId;
use opa_tree::Rulebase;
use opa_value::Value;

/// The line that was found of a conclusion, or else the answer.
pub(crate) fn told_line<'a, N: Next>(
    base: &Rulebase,
    next: &'a N,
    found: Option<&'a Line<Value>>,
    attr: AttrId,
    inst: &InstanceId,
) -> Option<&'a Line<Value>>
    requires fits { IsOf base.now (N.next next.now) }
    requires found { IsFound base.now (N.next next.now) attr inst.now (option_copied found) }
    ensures value { IfSome result (λ line. StandsFor DAYS (value_at base.now (N.next next.now) attr inst.now) line.now) }
    ensures none { is_some result ≡ has_line base.now (N.next next.now) attr inst.now }
{
    match found {
        Some(line) => Some(line),
        None => answer_line(next, attr, inst),
    }
}

/// The answer, which is a line.
fn answer_line<'a, N: Next>(next: &'a N, attr: AttrId, inst: &InstanceId) -> Option<&'a Line<Value>>
    ensures answer { option_copied result ≡ get (N.next next.now).answers (attr.0, inst.now) }
    ensures form { IfSome result (λ line. IsLine DAYS line.now) }
{
    match next.answer_of(attr, inst) {
        Some(line) => {
            let _pairs = line.segments();
            Some(line)
        }
        None => None,
    }
}
