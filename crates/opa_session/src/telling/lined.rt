// What tells the lines that are held, without the case itself.
ghost use Rattle.std.specs.Prelude.{◌≡◌, is_some, IfSome};
ghost use Rattle.std.specs.Option.{option_copied};
ghost use Rattle.opa_case.specs.Cases.{CaseView, list_of};
ghost use Rattle.opa_case.specs.Live.{container_of};
ghost use Rattle.opa_date.specs.declared.TheConstants.{DAYS};
ghost use Rattle.opa_line.specs.Lines.{StandsFor};
ghost use Rattle.opa_mean.specs.Holding.{has_line};
ghost use Rattle.opa_mean.specs.Rulebases.{IsOf, value_at};
ghost use Rattle.opa_tree.specs.declared.rulebase.Rulebase.{Rulebase as Rules};

use opa_case::InstanceId;
use opa_io::{List, Txt};
use opa_line::Line;
use opa_mean::Held;
use opa_model::{AttrId, RelId};
use opa_tree::Rulebase;
use opa_value::Value;

/// What tells lines, lists and containers over a rulebase and a case that fits it, as `Held` does. The case itself needn't be
/// there: it may be one that comes.
pub trait Lined {
    ghost rules: { Self → Rules };

    ghost over: { Self → CaseView };

    fn base(&self) -> &Rulebase
        ensures base { result.now ≡ rules self.now }
        ensures fits { IsOf (rules self.now) (over self.now) };

    /// The line of an attribute for an instance. None exactly where the instance isn't live, isn't of the attribute's
    /// entity, or an attribute without a rule has no answer.
    fn line(&self, attr: AttrId, inst: &InstanceId) -> Option<&Line<Value>>
        ensures value { IfSome result (λ line. StandsFor DAYS (value_at (rules self.now) (over self.now) attr inst.now) line.now) }
        ensures none { is_some result ≡ has_line (rules self.now) (over self.now) attr inst.now };

    fn list_of(&self, rel: RelId, inst: &InstanceId) -> Option<&List<Txt>>
        ensures { option_copied result ≡ list_of (over self.now) rel inst.now };

    fn container_of(&self, inst: &InstanceId) -> Option<&InstanceId>
        ensures { option_copied result ≡ container_of (over self.now).live inst.now };

    /// Where an instance may stand in the list of its container: whoever asks has to look there.
    fn place(&self, inst: &InstanceId) -> Option<usize>;
}

/// What is held, as what tells lines.
#[derive(Clone, Copy)]
pub(crate) struct HeldLines<'a, H: Held> {
    pub(crate) source: &'a H,
}

impl<'a, H: Held> Lined for HeldLines<'a, H> {
    ghost rules = { λ l. H.rules l.source.now };

    ghost over = { λ l. H.held l.source.now };

    fn base(&self) -> &Rulebase {
        let _case = self.source.case();
        self.source.base()
    }

    fn line(&self, attr: AttrId, inst: &InstanceId) -> Option<&Line<Value>> {
        self.source.line(attr, inst)
    }

    fn list_of(&self, rel: RelId, inst: &InstanceId) -> Option<&List<Txt>> {
        self.source.case().list_of(rel, inst)
    }

    fn container_of(&self, inst: &InstanceId) -> Option<&InstanceId> {
        self.source.case().container_of(inst)
    }

    fn place(&self, _inst: &InstanceId) -> Option<usize> {
        None
    }
}
