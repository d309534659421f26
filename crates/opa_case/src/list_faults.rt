// Why a list can't be set or forgotten.
ghost use Rattle.std.specs.Prelude.{◌≡◌, true, false, cond, ◌&&◌, ◌||◌, not, ℕ, List, length, nat_lt, Option, IfOk, OnOk};
ghost use Rattle.std.specs.List.{list_any};
ghost use Rattle.opa_cells.specs.Instances.{is_text};
ghost use Rattle.opa_case.specs.Homes.{has_name};
ghost use Rattle.opa_case.specs.Fits.{Fits};
ghost use Rattle.opa_case.specs.Live.{is_live};
ghost use Rattle.opa_case.specs.Shapes.{shape_of};
ghost use Rattle.opa_case.specs.Cases.{CaseView, are_names, is_empty};
ghost use Rattle.opa_case.specs.Steps as step;

use crate::case::Case;
use crate::change::Refusal;
use crate::declared::bond_of;
use crate::listed::known_names;
use crate::names::{MANY, is_among, shared};
use crate::standing::Standing;
use opa_cells::InstanceId;
use opa_io::limits::MOST_INSTANCE_NAME;
use opa_io::{NoMemory, Txt, front};
use opa_model::{EntityId, Model, RelId, Ruled};
use std::alloc::Global;
use std::collections::HashMap;

/// Why the list can't be set, but for the numbers of what it makes live.
pub fn list_fault<S: Standing>(
    alloc: Global,
    case: &S,
    model: &Model,
    rel: RelId,
    inst: &InstanceId,
    names: &[Txt],
) -> Result<Option<Refusal>, NoMemory>
    ensures { IfOk result (λ fault. fault ≡
        step.list_fault (shape_of model.now) (S.case case.now) rel inst.now names.now) }
{
    let fault = list_fault_over(alloc, case, model, rel, inst, names, &[])?;
    Ok(fault)
}

impl Case {
    /// The same of a case, whose own list tells that the names with which both begin are no fault.
    pub(crate) fn fault_of_list(
        &self,
        alloc: Global,
        model: &Model,
        ruled: &Ruled,
        rel: RelId,
        inst: &InstanceId,
        names: &[Txt],
    ) -> Result<Option<Refusal>, NoMemory>
        requires { Fits (shape_of model.now) ruled.now self.now }
        ensures { IfOk result (λ fault. fault ≡
            step.list_fault (shape_of model.now) self.now rel inst.now names.now) }
    {
        // The facts are its lists', and its model's.
        let _lists = self.lists();
        let _bond = bond_of(model, rel.0);
        let known = known_names(self.stored_of(rel, inst));
        let fault = list_fault_over(alloc, self, model, rel, inst, names, known)?;
        Ok(fault)
    }
}

/// The same, beside names that may stand in the list.
fn list_fault_over<S: Standing>(
    alloc: Global,
    case: &S,
    model: &Model,
    rel: RelId,
    inst: &InstanceId,
    names: &[Txt],
    known: &[Txt],
) -> Result<Option<Refusal>, NoMemory>
    requires names { are_names known.now ≡ true }
    requires free { (n : List ℕ) → list_any (is_text n) known.now ≡ true → step.cant_name (shape_of model.now) (S.case case.now) rel inst.now n ≡ false }
    ensures { IfOk result (λ fault. fault ≡
        step.list_fault (shape_of model.now) (S.case case.now) rel inst.now names.now) }
{
    if is_misplaced(case, model, rel, inst) {
        return Ok(Some(Refusal::Name));
    }
    if !are_names(alloc, names, known)? {
        return Ok(Some(Refusal::Name));
    }
    if cant_name_new(alloc, case, model, rel, inst, names, known)? {
        return Ok(Some(Refusal::Name));
    }
    if bond_of(model, rel.0).one && 1 < names.len() {
        return Ok(Some(Refusal::Range));
    }
    if is_one_long(names) {
        return Ok(Some(Refusal::Limit));
    }
    Ok(None)
}

/// Whether nothing can be said of the relation at the instance.
pub(crate) fn is_misplaced<S: Standing>(
    case: &S,
    model: &Model,
    rel: RelId,
    inst: &InstanceId,
) -> bool
    ensures { result ≡ step.is_misplaced (shape_of model.now) (S.case case.now) rel inst.now }
{
    let bond = bond_of(model, rel.0);
    bond.every || !case.live(inst) || !(inst.entity.0 == bond.source)
}

/// Whether no name is empty or stands twice. What both lists begin with is known to be so.
fn are_names(alloc: Global, names: &[Txt], known: &[Txt]) -> Result<bool, NoMemory>
    requires { are_names known.now ≡ true }
    ensures { IfOk result (λ are. are ≡ are_names names.now) }
{
    let (front, rest) = names.split_at(shared(names, known));
    if rest.len() < MANY {
        return Ok(are_behind(front, rest));
    }
    let are = are_many_names(alloc, names)?;
    Ok(are)
}

/// Whether no name of the rest is empty or stands twice, nor stands in front.
fn are_behind(front: &[Txt], rest: &[Txt]) -> bool
    ensures { result ≡ (are_names rest.now && not (list_any (λ n. list_any (is_text n) rest.now) front.now)) }
{
    are_few_names(rest) && !is_one_among(front, rest)
}

fn is_one_among(names: &[Txt], others: &[Txt]) -> bool
    ensures { result ≡ list_any (λ n. list_any (is_text n) others.now) names.now }
{
    names.iter().any(|name| is_among(name, others))
}

/// It goes through the names behind, for each name.
fn are_few_names(names: &[Txt]) -> bool
    ensures { result ≡ are_names names.now }
{
    let mut rest = names;
    while let Some((name, behind)) = front(rest) {
        if !is_fresh(name, behind) {
            return false;
        }
        rest = behind;
    }
    true
}

/// Whether a name isn't empty and isn't among those behind it.
fn is_fresh(name: &Txt, behind: &[Txt]) -> bool
    ensures { result ≡ (not (is_empty name.now) && not (list_any (is_text name.now) behind.now)) }
{
    !is_empty(name) && !is_among(name, behind)
}

/// It goes from the last name to the first, over a set of those behind.
fn are_many_names(alloc: Global, names: &[Txt]) -> Result<bool, NoMemory>
    ensures { IfOk result (λ are. are ≡ are_names names.now) }
{
    let mut later = HashMap::with_capacity(alloc, names.len())?;
    let mut at = names.len();
    while 0 < at {
        at -= 1;
        let name = &names[at];
        if !is_new(&later, name) {
            return Ok(false);
        }
        add_name(&mut later, name)?;
    }
    Ok(true)
}

/// Whether a name isn't empty and isn't among the later ones.
fn is_new(later: &HashMap<&str, ()>, name: &Txt) -> bool
    ensures { result ≡ (not (is_empty name.now) && not (has_name later.now name.now)) }
{
    !is_empty(name) && !has_name(later, name)
}

/// Whether a set of names has this one.
pub(crate) fn has_name(names: &HashMap<&str, ()>, name: &Txt) -> bool
    ensures { result ≡ has_name names.now name.now }
{
    names.contains_key(name.as_str())
}

fn is_empty(name: &Txt) -> bool
    ensures { result ≡ is_empty name.now }
{
    name.as_str().is_empty()
}

/// Adds a name to a set, which borrows it.
pub(crate) fn add_name<'a>(later: &mut HashMap<&'a str, ()>, name: &'a Txt) -> Result<(), NoMemory>
    ensures { OnOk result ((q : List ℕ) → has_name later.new q ≡ (is_text q name.now || has_name later.old q)) }
{
    later.insert(name.as_str(), ())?;
    Ok(())
}

fn is_one_long(names: &[Txt]) -> bool
    ensures { result ≡ list_any (λ n. nat_lt 100 (length n)) names.now }
{
    names
        .iter()
        .any(|name| MOST_INSTANCE_NAME < name.as_str().len())
}

/// Whether a name can't stand in the list. What both lists begin with is known to.
fn cant_name_new<S: Standing>(
    alloc: Global,
    case: &S,
    model: &Model,
    rel: RelId,
    inst: &InstanceId,
    names: &[Txt],
    known: &[Txt],
) -> Result<bool, NoMemory>
    requires { (n : List ℕ) → list_any (is_text n) known.now ≡ true → step.cant_name (shape_of model.now) (S.case case.now) rel inst.now n ≡ false }
    ensures { IfOk result (λ cant. cant ≡ list_any (step.cant_name (shape_of model.now) (S.case case.now) rel inst.now) names.now) }
{
    let (_, rest) = names.split_at(shared(names, known));
    let cant = cant_name_one(alloc, case, model, rel, inst, rest)?;
    Ok(cant)
}

fn cant_name_one<S: Standing>(
    alloc: Global,
    case: &S,
    model: &Model,
    rel: RelId,
    inst: &InstanceId,
    names: &[Txt],
) -> Result<bool, NoMemory>
    ensures { IfOk result (λ cant. cant ≡ list_any (step.cant_name (shape_of model.now) (S.case case.now) rel inst.now) names.now) }
{
    for name in names {
        if cant_name(alloc, case, model, rel, inst, name)? {
            return Ok(true);
        }
    }
    Ok(false)
}

fn cant_name<S: Standing>(
    alloc: Global,
    case: &S,
    model: &Model,
    rel: RelId,
    inst: &InstanceId,
    name: &Txt,
) -> Result<bool, NoMemory>
    ensures { IfOk result (λ cant. cant ≡ step.cant_name (shape_of model.now) (S.case case.now) rel inst.now name.now) }
{
    let bond = bond_of(model, rel.0);
    let named = InstanceId {
        entity: EntityId(bond.target),
        name: name.copy(alloc)?,
    };
    Ok(is_taken(case, bond.contains, inst, &named))
}

/// Whether an instance can't stand in a list: it stands in another container, or isn't live where lists refer.
fn is_taken<S: Standing>(case: &S, contains: bool, inst: &InstanceId, named: &InstanceId) -> bool
    ensures { result ≡ cond contains (step.stands_elsewhere (S.case case.now).live inst.now named.now) (not (is_live (S.case case.now).live named.now)) }
{
    if contains {
        stands_elsewhere(case, inst, named)
    } else {
        !case.live(named)
    }
}

/// Whether an instance stands in another container than this one.
fn stands_elsewhere<S: Standing>(case: &S, container: &InstanceId, inst: &InstanceId) -> bool
    ensures { result ≡ step.stands_elsewhere (S.case case.now).live container.now inst.now }
{
    match case.container_of(inst) {
        Some(found) => !found.equals(container),
        None => false,
    }
}
