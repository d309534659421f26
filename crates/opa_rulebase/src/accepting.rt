// Files become a rulebase, phase by phase.
ghost use Rattle.std.specs.Prelude.{ℕ, ◌≡◌, ◌<◌, ◌^◌, [], map, length, All, List as Seq, IfOk, IfErr};
ghost use Rattle.opa_model.specs.declared.ids.AttrId.{AttrId as Id};
ghost use Rattle.opa_tree.specs.Accepted.{HaveForm, AreShallow, AreFiled};
ghost use Rattle.opa_tree.specs.declared.faults.RbError.TheVariants.{Refused as RefusedAs};
ghost use Rattle.opa_tree.specs.declared.faults.RbFault.{RbFault as FaultView};
ghost use Rattle.opa_rulebase.specs.declared.files.source.SourceFile.{SourceFile as FileView};
ghost use Rattle.opa_words.specs.Layout.Blocks.{lines_of};
ghost use Rattle.opa_rulebase.specs.Files.Layouts.{IsShort};
ghost use Rattle.opa_verbs.specs.Phrasing.{IsReadable};
ghost use Rattle.opa_parse.specs.Fronts.{AreShort};
ghost use Rattle.opa_parse.specs.Handed.{AreFormed, AreDeclared};
ghost use Rattle.opa_rulebase.specs.Checking.Refused.{IsRefused as IsCheckFault};
ghost use Rattle.opa_rulebase.specs.declared.fault.Refusal.{Refusal as RefusalView};
ghost use Rattle.opa_rulebase.specs.declared.fault.Unaccepted.TheVariants.{Refused};
ghost use Rattle.opa_rulebase.specs.Loading.{AreBlocks, IsDeclared, AreInferred, IsAccepted, HasRefusal, phrase_at, phrases_of, IsCircleRefusal, IsPlain};

use crate::checking::check;
use crate::fault::{Refusal, Unaccepted};
use crate::files::{SourceFile, lay_out};
use crate::ruled::ruled_of;
use crate::tables::tables_of;
use opa_decl::read_declarations;
use opa_io::{List, NoMemory, Txt, front};
use opa_model::{AttrId, Model};
use opa_parse::{read_all_rules, read_inferences};
use opa_tree::{Inferences, RbError, RbFault, Rulebase, Rules};
use opa_words::Block;
use std::alloc::Global;

/// The names of files.
fn names(alloc: Global, files: &[SourceFile]) -> Result<List<Txt>, NoMemory>
    ensures { IfOk result (λ names. names ≡ map (λ (f : FileView). f.name) files.now) }
{
    let mut names = List::new(alloc);
    let mut rest = files;
    while let Some((file, later)) = front(rest) {
        names.push(file.name.copy(alloc)?)?;
        rest = later;
    }
    Ok(names)
}

fn phrase(model: &Model, attr: AttrId) -> &str
    ensures { result.now ≡ phrase_at model.now attr }
{
    if attr.0 < model.attribute_count() {
        model.attribute(attr).phrase.as_str()
    } else {
        ""
    }
}

/// The phrases of attributes.
fn phrases(alloc: Global, model: &Model, circle: &[AttrId]) -> Result<List<Txt>, NoMemory>
    ensures { IfOk result (λ phrases. phrases ≡ phrases_of model.now circle.now) }
{
    let mut all = List::new(alloc);
    let mut rest = circle;
    while let Some((attr, later)) = front(rest) {
        all.push(Txt::from_str(alloc, phrase(model, *attr))?)?;
        rest = later;
    }
    Ok(all)
}

/// A fault without a circle.
pub fn without_circle(alloc: Global, error: RbError) -> Unaccepted
    ensures { IsPlain error result }
{
    match error {
        RbError::Refused(fault) => Unaccepted::Refused(Refusal {
            fault,
            circle: List::new(alloc),
        }),
        RbError::NoMemory => Unaccepted::NoMemory,
    }
}

/// A fault of checked rules, which may be a circle.
pub fn with_circle(alloc: Global, model: &Model, fault: RbFault) -> Result<Refusal, NoMemory>
    ensures { IfOk result (λ r. (r.fault ≡ fault) × (r.circle ≡ phrases_of model.now fault.cycle)) }
{
    let circle = phrases(alloc, model, fault.cycle.as_slice())?;
    Ok(Refusal { fault, circle })
}

/// The rulebase of rules, if they are accepted.
fn accept_rules(
    alloc: Global,
    model: Model,
    rules: Rules,
    files: List<Txt>,
) -> Result<Rulebase, Unaccepted>
    requires declared { AreDeclared model rules }
    requires formed { HaveForm rules }
    requires shallow { AreShallow rules }
    requires filed { AreFiled (length files) rules }
    ensures model { IfOk result (λ base. base.model ≡ model) }
    ensures rules { IfOk result (λ base. base.rules ≡ rules) }
    ensures files { IfOk result (λ base. base.files ≡ files) }
    ensures refused { IfErr result (IsCircleRefusal model rules) }
{
    match check(alloc, &model, &rules) {
        Ok(ranks) => {
            let ruled = ruled_of(alloc, model.attribute_count(), rules.as_slice())?;
            let rules = rules.with_places(alloc, model.attribute_count())?;
            Ok(Rulebase::new(model, rules, ranks, ruled, files))
        }
        Err(RbError::Refused(fault)) => {
            let refusal = with_circle(alloc, &model, fault)?;
            Err(Unaccepted::Refused(refusal))
        }
        Err(RbError::NoMemory) => Err(Unaccepted::NoMemory),
    }
}

/// The rulebase of a model and its inferred relations.
fn accept_inferred(
    alloc: Global,
    model: Model,
    inferences: &Inferences,
    blocks: &[Block],
    files: &[SourceFile],
) -> Result<Rulebase, Unaccepted>
    requires readable { IsReadable model }
    requires inferred { AreInferred files.now blocks.now model inferences.now }
    requires formed { AreFormed inferences.now }
    requires short { All (λ b. AreShort b.lines) blocks.now }
    requires placed { All (λ b. b.file < length files.now) blocks.now }
    requires few { length files.now < 2 ^ 32 }
    ensures accepted { IfOk result (IsAccepted files.now) }
    ensures readable { IfOk result (λ base. IsReadable base.model) }
    ensures refused { IfErr result (HasRefusal files.now) }
{
    let names = names(alloc, files)?;
    let tables = tables_of(alloc, files)?;
    match read_all_rules(alloc, &model, inferences, blocks, tables.as_slice()) {
        Ok(rules) => accept_rules(alloc, model, rules, names),
        Err(error) => Err(without_circle(alloc, error)),
    }
}

/// The rulebase of a model.
fn accept_declared(
    alloc: Global,
    model: Model,
    blocks: &[Block],
    files: &[SourceFile],
) -> Result<Rulebase, Unaccepted>
    requires readable { IsReadable model }
    requires declared { IsDeclared files.now blocks.now model }
    requires short { All (λ b. AreShort b.lines) blocks.now }
    requires placed { All (λ b. b.file < length files.now) blocks.now }
    requires few { length files.now < 2 ^ 32 }
    ensures accepted { IfOk result (IsAccepted files.now) }
    ensures readable { IfOk result (λ base. IsReadable base.model) }
    ensures refused { IfErr result (HasRefusal files.now) }
{
    match read_inferences(alloc, &model, blocks) {
        Ok(inferences) => accept_inferred(alloc, model, &inferences, blocks, files),
        Err(error) => Err(without_circle(alloc, error)),
    }
}

/// The rulebase of blocks.
fn accept_blocks(
    alloc: Global,
    blocks: &[Block],
    files: &[SourceFile],
) -> Result<Rulebase, Unaccepted>
    requires blocks { AreBlocks files.now blocks.now }
    requires short_lines { All IsShort (lines_of blocks.now) }
    requires short { All (λ b. AreShort b.lines) blocks.now }
    requires placed { All (λ b. b.file < length files.now) blocks.now }
    requires few { length files.now < 2 ^ 32 }
    ensures accepted { IfOk result (IsAccepted files.now) }
    ensures readable { IfOk result (λ base. IsReadable base.model) }
    ensures refused { IfErr result (HasRefusal files.now) }
{
    match read_declarations(alloc, blocks) {
        Ok(model) => accept_declared(alloc, model, blocks, files),
        Err(error) => Err(without_circle(alloc, error)),
    }
}

/// The rulebase that files spell, or the first fault: of their layout, then of the declarations, of the membership blocks, of
/// the rules and tables, and of what is checked of the rules.
pub fn accept(alloc: Global, files: &[SourceFile]) -> Result<Rulebase, Unaccepted>
    requires texts { All (λ (f : FileView). length f.text < 2 ^ 32) files.now }
    requires few { length files.now < 2 ^ 32 }
    ensures accepted { IfOk result (IsAccepted files.now) }
    ensures readable { IfOk result (λ base. IsReadable base.model) }
    ensures refused { IfErr result (HasRefusal files.now) }
{
    match lay_out(alloc, files) {
        Ok(blocks) => accept_blocks(alloc, blocks.as_slice(), files),
        Err(error) => Err(without_circle(alloc, error)),
    }
}
