// What is kept of the earlier rows of a table.
ghost use Rattle.std.specs.Prelude.{◌≡◌, ◌<◌, ◌∷◌, ◌++◌, [], length, IfOk, IfSome, OnOk};
ghost use Rattle.std.specs.HashMap.{get};
ghost use Rattle.opa_rules.specs.Reviewing.Earlier as meant;
ghost use Rattle.opa_rules.specs.Reviewing.Rows.{is_always as is_always_of, covering};
ghost use Rattle.opa_rules.specs.Reviewing.Trees.{same_tree};

use crate::reviewing::conditions::Condition;
use crate::same_trees::is_same;
use opa_io::NoMemory;
use opa_tree::{Expr, Row};
use opa_value::Value;
use std::alloc::Global;
use std::collections::HashMap;

/// The first place of each condition, and of the first that is always true.
#[derive(Drop)]
pub(crate) struct Earlier<'a> {
    pub(crate) places: HashMap<Condition<'a>, usize>,
    pub(crate) always: Option<usize>,
}

/// Whether a condition is the literal `true`.
pub(crate) fn is_always(cond: &Expr) -> bool
    ensures { result ≡ is_always_of cond.now }
{
    is_same(cond, &Expr::Const(Value::Bool(true)))
}

/// The lesser of two places.
fn lesser(a: Option<usize>, b: Option<usize>) -> Option<usize>
    ensures { result ≡ meant.lesser a b }
{
    match (a, b) {
        (None, _) => b,
        (Some(_), None) => a,
        (Some(a), Some(b)) => Some(a.min(b)),
    }
}

/// The place that was found, or else one that passes.
fn found_or(found: Option<usize>, passes: bool, place: usize) -> Option<usize>
    ensures { result ≡ meant.found_or found passes place }
{
    match found {
        Some(_) => found,
        None => { if passes { Some(place) } else { None } }
    }
}

/// Notes the place of a condition that has none.
fn note<'a>(
    places: &mut HashMap<Condition<'a>, usize>,
    condition: Condition<'a>,
    place: usize,
) -> Result<(), NoMemory>
    ensures { OnOk result (meant.IsNoted condition.entry place (get same_tree places.old) (get same_tree places.new)) }
{
    if !places.contains_key(&condition) {
        places.insert(condition, place)?;
    }
    Ok(())
}

impl<'a> Earlier<'a> {
    pub(crate) fn new(alloc: Global) -> Earlier<'a>
        ensures { meant.AreKnown [] (get same_tree result.places) result.always }
    {
        Earlier {
            places: HashMap::new(alloc),
            always: None,
        }
    }

    /// The place of the first row that leaves nothing to the next one, which is an earlier one from then on.
    #[tactic(auto, using(crate::proofs::reviewing::EarlierLaws::found, crate::proofs::reviewing::RowLaws::covering_within))]
    pub(crate) fn next(&mut self, rows: &[Row], row: &'a Row) -> Result<Option<usize>, NoMemory>
        requires { meant.AreKnown rows.now (get same_tree self.old.places) self.old.always }
        ensures found { IfOk result (λ place. place ≡ covering rows.now row.now.cond) }
        ensures within { IfOk result (λ place. IfSome place (λ n. n < length rows.now)) }
        ensures known { OnOk result (meant.AreKnown (rows.now ++ row.now ∷ []) (get same_tree self.new.places) self.new.always) }
    {
        let condition = Condition::new(&row.cond);
        let alike = self.places.get(&condition).copied();
        let first = lesser(alike, self.always);
        note(&mut self.places, condition, rows.len())?;
        self.always = found_or(self.always, is_always(&row.cond), rows.len());
        Ok(first)
    }
}
