// What is seen of a session.
ghost use Rattle.std.specs.Prelude.{◌≡◌, ◌<◌, ◌↔◌, true, is_some, length, IfSome};
ghost use Rattle.opa_date.specs.declared.TheConstants.{DAYS};
ghost use Rattle.opa_line.specs.Lines.{StandsFor};
ghost use Rattle.opa_mean.specs.Changes.{slots as slots_of_case};
ghost use Rattle.opa_mean.specs.Given.{base_of, facts_of};
ghost use Rattle.opa_mean.specs.Rulebases.{IsOf, value_at};
ghost use Rattle.opa_mean.specs.Slots as slots;
ghost use Rattle.opa_session.specs.Infer.Sessions.{rules_of, held_of, reached_of};
ghost use Rattle.opa_case.specs.Laws.{IsDeclared};
ghost use Rattle.opa_case.specs.Shapes.{shape_of};
ghost use Rattle.opa_mean.specs.Goals.Rulebases.{rulebase_of};
ghost use Rattle.opa_mean.specs.Goals.States as states;

use crate::infer::session::Session;
use crate::infer::told::told_line;
use opa_case::{Case, ChangeCommand, InstanceId};
use opa_line::Line;
use opa_mean::{Frees, GoalState, Held, goal_state, has_place, slots_counted};
use opa_model::AttrId;
use opa_tree::Rulebase;
use opa_value::Value;
use std::sync::ledger::Ledger;

impl<L: Ledger> Held for Session<L> {
    ghost use Rattle.opa_session.specs.Infer.Sessions.{rules_of, held_of};

    ghost rules = { rules_of };

    ghost held = { held_of };

    fn base(&self) -> &Rulebase {
        &self.base
    }

    fn case(&self) -> &Case {
        // The count shows the model's form.
        let _count = self.base.model.entity_count();
        &self.case
    }

    fn line(&self, attr: AttrId, inst: &InstanceId) -> Option<&Line<Value>> {
        let _count = self.base.model.entity_count();
        told_line(
            &self.base,
            &self.case,
            self.store.get(attr, inst),
            attr,
            inst,
        )
    }
}

impl<L: Ledger> Session<L> {
    /// Which attributes never rest on whether something is known.
    pub fn frees(&self) -> &Frees
        ensures { rulebase_of result.now ≡ rules_of self.now }
    {
        &self.frees
    }

    /// How many slots the last accepted change reached; 0 before the first one.
    pub fn dirty(&self) -> u64
        ensures { result ≡ reached_of self.now }
    {
        self.dirty
    }

    /// How many slots there are: live instances, each with an attribute of its entity that has a rule. It takes no memory.
    pub fn slots(&self) -> u64
        ensures { result ≡ length (slots_of_case (base_of (rules_of self.now)) (facts_of (held_of self.now))) }
    {
        slots_counted();
        let base = self.base();
        self.case().slots(&base.model, &base.ruled)
    }

    /// The state of the goal with a number. What is settled has the same value on every day in every completion of the case.
    pub fn goal_state(&self, goal: u32) -> GoalState
        requires goal { goal < length (rules_of self.now).model.goals }
        ensures state { states.HasState (rules_of self.now) (held_of self.now) goal result }
        ensures exact { states.IsStateOfGoal (rules_of self.now) (held_of self.now) goal result }
        ensures stays { states.StaysSettledThere (rules_of self.now) (held_of self.now) goal result }
    {
        goal_state(self, &self.frees, goal)
    }

    /// Whether the instance is live and of the attribute's entity.
    pub fn has_place(&self, attr: AttrId, inst: &InstanceId) -> bool
        ensures { result ≡ slots.has_place (rules_of self.now) (held_of self.now) attr inst.now }
    {
        has_place(&self.base, &self.case, attr, inst)
    }

    /// Whether the attribute or relation of a command is declared.
    pub fn declares(&self, command: &ChangeCommand) -> bool
        ensures { (result ≡ true) ↔ IsDeclared (shape_of (rules_of self.now).model) command.now }
    {
        match command {
            ChangeCommand::Answer(attr, _, _) => attr.0 < self.base.model.attribute_count(),
            ChangeCommand::Withdraw(attr, _) => attr.0 < self.base.model.attribute_count(),
            ChangeCommand::SetList(rel, _, _) => rel.0 < self.base.model.relation_count(),
            ChangeCommand::Forget(rel, _) => rel.0 < self.base.model.relation_count(),
        }
    }

    /// The line that is shown of an attribute for an instance: what its rule concludes, or the answer, and unknown on every day
    /// where there is neither. None where the instance isn't live or isn't of the attribute's entity. It takes no memory.
    pub fn value(&self, attr: AttrId, inst: &InstanceId) -> Option<&Line<Value>>
        ensures line { IfSome result (λ line. StandsFor DAYS
            (value_at (rules_of self.now) (held_of self.now) attr inst.now) line.now) }
        ensures none { is_some result ≡ slots.has_place (rules_of self.now) (held_of self.now) attr inst.now }
    {
        let _case = self.case();
        match self.line(attr, inst) {
            Some(line) => Some(line),
            None => {
                if has_place(&self.base, &self.case, attr, inst) {
                    Some(&self.unknown)
                } else {
                    None
                }
            }
        }
    }
}
