// What goes takes its lists and its answers with it, and the reference lists that name it.
ghost use Rattle.std.specs.Prelude.{◌≡◌, ◌==◌, ◌&&◌, nat_lt, ℕ, cond, None};
ghost use Rattle.std.specs.List.{list_any};
ghost use Rattle.std.specs.FinMap as map;
ghost use Rattle.opa_model.specs.Models.{IsModel, HasAttribute};
ghost use Rattle.opa_cells.specs.declared.instance.InstanceId.{InstanceId as InstanceView};
ghost use Rattle.opa_case.specs.Shapes.{shape_of};
ghost use Rattle.opa_case.specs.Lost.{stands_at, refers_to, goes_with, answers_of};

use crate::declared::{attribute_of, bond_of};
use crate::listed::Listed;
use opa_cells::{Cells, InstanceId};
use opa_line::Line;
use opa_model::{AttrId, Model};
use opa_value::Value;

/// Takes out the lists of what goes, and the reference lists that name it.
pub(crate) fn drop_lists(model: &Model, lists: &mut Listed, gone: &[(InstanceId, InstanceId)])
    ensures { (q : ℕ) (j : InstanceView) → map.get lists.new (q, j) ≡ cond (nat_lt q (shape_of model.now).relations && list_any (λ g. goes_with (shape_of model.now) g.0 q j (map.get lists.old (q, j))) gone.now) None (map.get lists.old (q, j)) }
{
    for (inst, _) in gone {
        drop_lists_of(model, lists, inst);
    }
}

/// Takes out what goes with one instance.
fn drop_lists_of(model: &Model, lists: &mut Listed, inst: &InstanceId)
    ensures { (q : ℕ) (j : InstanceView) → map.get lists.new (q, j) ≡ cond (nat_lt q (shape_of model.now).relations && goes_with (shape_of model.now) inst.now q j (map.get lists.old (q, j))) None (map.get lists.old (q, j)) }
{
    let count = model.relation_count();
    let mut number = 0;
    while number < count {
        drop_of_relation(model, lists, number, inst);
        number += 1;
    }
}

/// Takes out what goes with one instance of one relation.
fn drop_of_relation(model: &Model, lists: &mut Listed, number: u32, inst: &InstanceId)
    ensures { (q : ℕ) (j : InstanceView) → map.get lists.new (q, j) ≡ cond (q == number && goes_with (shape_of model.now) inst.now q j (map.get lists.old (q, j))) None (map.get lists.old (q, j)) }
{
    drop_own(model, lists, number, inst);
    drop_naming(model, lists, number, inst);
}

fn drop_own(model: &Model, lists: &mut Listed, number: u32, inst: &InstanceId)
    ensures { (q : ℕ) (j : InstanceView) → map.get lists.new (q, j) ≡ cond (q == number && stands_at (shape_of model.now) inst.now q j) None (map.get lists.old (q, j)) }
{
    if bond_of(model, number).source == inst.entity.0 {
        lists.remove(number, inst);
    }
}

fn drop_naming(model: &Model, lists: &mut Listed, number: u32, inst: &InstanceId)
    ensures { (q : ℕ) (j : InstanceView) → map.get lists.new (q, j) ≡ cond (q == number && refers_to (shape_of model.now) inst.now q (map.get lists.old (q, j))) None (map.get lists.old (q, j)) }
{
    let bond = bond_of(model, number);
    if !bond.contains && bond.target == inst.entity.0 {
        lists.remove_naming(number, &inst.name);
    }
}

/// Takes out the answers of what goes.
pub(crate) fn drop_answers(
    model: &Model,
    answers: &mut Cells<Line<Value>>,
    gone: &[(InstanceId, InstanceId)],
)
    ensures { (a : ℕ) (j : InstanceView) → map.get answers.new (a, j) ≡ cond (nat_lt a (shape_of model.now).attributes && list_any (λ g. answers_of (shape_of model.now) g.0 a j) gone.now) None (map.get answers.old (a, j)) }
{
    for (inst, _) in gone {
        drop_answers_of(model, answers, inst);
    }
}

/// Takes out the answers of one instance.
fn drop_answers_of(model: &Model, answers: &mut Cells<Line<Value>>, inst: &InstanceId)
    ensures { (a : ℕ) (j : InstanceView) → map.get answers.new (a, j) ≡ cond (nat_lt a (shape_of model.now).attributes && answers_of (shape_of model.now) inst.now a j) None (map.get answers.old (a, j)) }
{
    let count = model.attribute_count();
    let mut number = 0;
    while number < count {
        drop_answer(model, answers, AttrId(number), inst);
        number += 1;
    }
}

fn drop_answer(model: &Model, answers: &mut Cells<Line<Value>>, attr: AttrId, inst: &InstanceId)
    requires { HasAttribute model.now attr }
    ensures { (a : ℕ) (j : InstanceView) → map.get answers.new (a, j) ≡ cond (a == attr.0 && answers_of (shape_of model.now) inst.now a j) None (map.get answers.old (a, j)) }
{
    if attribute_of(model, attr).entity.0 == inst.entity.0 {
        answers.remove(attr.0, inst);
    }
}
