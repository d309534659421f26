// The first error of blocks, phase by phase as in loading.
ghost use Rattle.std.specs.Prelude.{◌≡◌, All, IfOk, IfErr};
ghost use Rattle.opa_parse.specs.Fronts.{AreShort};
ghost use Rattle.opa_decl.specs.Declarations.{Declares};
ghost use Rattle.opa_parse.specs.Memberships.{AreInferences};
ghost use Rattle.opa_parse.specs.Handed.{AreDeclared};
ghost use Rattle.opa_tree.specs.Accepted.{AreAccepted};
ghost use Rattle.opa_rulebase.specs.Loading.{IsCircleRefusal};
ghost use Rattle.opa_rules.specs.Faults.Listing.{AreFree, HasFirst};

use opa_decl::read_declarations;
use opa_model::Model;
use opa_parse::{TableFile, read_all_rules, read_inferences};
use opa_rulebase::{Unaccepted, check, with_circle, without_circle};
use opa_tree::{Inferences, RbError, Rules};
use opa_words::Block;
use std::alloc::Global;

/// What is wrong first with blocks beside tables: in their declarations, their membership blocks, their rules and tables, and
/// in what is checked of the rules.
pub(crate) fn first_fault(
    alloc: Global,
    blocks: &[Block],
    tables: &[TableFile],
) -> Result<(), Unaccepted>
    requires { All (λ b. AreShort b.lines) blocks.now }
    ensures free { IfOk result (λ _. AreFree tables.now blocks.now) }
    ensures fault { IfErr result (HasFirst tables.now blocks.now) }
{
    match read_declarations(alloc, blocks) {
        Ok(model) => fault_of_members(alloc, &model, blocks, tables),
        Err(error) => Err(without_circle(alloc, error)),
    }
}

/// The same of blocks that declare a model.
fn fault_of_members(
    alloc: Global,
    model: &Model,
    blocks: &[Block],
    tables: &[TableFile],
) -> Result<(), Unaccepted>
    requires short { All (λ b. AreShort b.lines) blocks.now }
    requires declared { Declares blocks.now model.now }
    ensures free { IfOk result (λ _. AreFree tables.now blocks.now) }
    ensures fault { IfErr result (HasFirst tables.now blocks.now) }
{
    match read_inferences(alloc, model, blocks) {
        Ok(inferences) => fault_of_rules(alloc, model, &inferences, blocks, tables),
        Err(error) => Err(without_circle(alloc, error)),
    }
}

/// The same of blocks whose membership blocks are read.
fn fault_of_rules(
    alloc: Global,
    model: &Model,
    inferences: &Inferences,
    blocks: &[Block],
    tables: &[TableFile],
) -> Result<(), Unaccepted>
    requires short { All (λ b. AreShort b.lines) blocks.now }
    requires declared { Declares blocks.now model.now }
    requires inferred { AreInferences model.now blocks.now inferences.now }
    ensures free { IfOk result (λ _. AreFree tables.now blocks.now) }
    ensures fault { IfErr result (HasFirst tables.now blocks.now) }
{
    match read_all_rules(alloc, model, inferences, blocks, tables) {
        Ok(rules) => fault_of_check(alloc, model, &rules),
        Err(error) => Err(without_circle(alloc, error)),
    }
}

/// What is wrong with rules that could be read.
fn fault_of_check(alloc: Global, model: &Model, rules: &Rules) -> Result<(), Unaccepted>
    requires { AreDeclared model.now rules.now }
    ensures free { IfOk result (λ _. AreAccepted model.now rules.now) }
    ensures fault { IfErr result (IsCircleRefusal model.now rules.now) }
{
    match check(alloc, model, rules) {
        Ok(_) => Ok(()),
        Err(RbError::Refused(fault)) => {
            let refusal = with_circle(alloc, model, fault)?;
            Err(Unaccepted::Refused(refusal))
        }
        Err(RbError::NoMemory) => Err(Unaccepted::NoMemory),
    }
}
