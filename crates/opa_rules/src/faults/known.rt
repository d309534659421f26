// The phrases that rules can use.
ghost use Rattle.std.specs.Prelude.{◌≡◌, ◌≤◌, ◌++◌, [], length, All, IfOk, IfSome};
ghost use Rattle.opa_model.specs.Lookups.{relation_phrases};
ghost use Rattle.opa_model.specs.Models.{HasVerb};
ghost use Rattle.opa_verbs.specs.Phrasing.{texts_of, operand_phrases};
ghost use Rattle.opa_decl.specs.Declarations.{Declares};
ghost use Rattle.opa_parse.specs.Fronts.{AreShort};
ghost use Rattle.opa_parse.specs.Naming.{inferred_phrases};
ghost use Rattle.opa_rulebase.specs.declared.files.source.SourceFile.{SourceFile as FileView};
ghost use Rattle.opa_rules.specs.Faults.Known.{known_phrases, AreKnown, AreKnownIn};
ghost use Rattle.opa_rules.specs.Faults.Unknown.{heads as heads_of};

use crate::faults::blocks::declaring;
use opa_decl::read_declarations;
use opa_io::{List, NoMemory, Txt, front};
use opa_model::{AttrId, Attribute, Model, RelId};
use opa_parse::read_inferences;
use opa_rulebase::{SourceFile, lay_out};
use opa_tree::{Inferred, RbError};
use opa_verbs::{Form, say};
use opa_words::{Block, Phrases};
use std::alloc::Global;

/// Phrases that are known, and how lines over groups of a list begin.
#[derive(Drop)]
pub(crate) struct Known {
    pub texts: List<Txt>,
    pub phrases: Phrases,
    pub heads: Phrases,
    ghost same: { phrases ≡ texts },
    ghost headed: { heads ≡ heads_of },
}

fn heads(alloc: Global) -> Result<Phrases, NoMemory>
    ensures { IfOk result (λ p. p ≡ heads_of) }
{
    let mut heads = List::new(alloc);
    heads.push(Txt::from_str(alloc, "for all of")?)?;
    heads.push(Txt::from_str(alloc, "for at least one of")?)?;
    Ok(Phrases::new(alloc, &heads)?)
}

/// These phrases are known. So many that they can't be counted aren't held either.
fn known_as(alloc: Global, texts: List<Txt>) -> Result<Known, NoMemory>
    ensures { IfOk result (λ k. k.texts ≡ texts) }
{
    if texts.len() >= 4_294_967_296 {
        return Err(NoMemory);
    }
    Ok(Known {
        phrases: Phrases::new(alloc, &texts)?,
        heads: heads(alloc)?,
        texts,
    })
}

/// Puts the phrase of an attribute behind others, and what denies it.
fn with_texts(
    alloc: Global,
    texts: List<Txt>,
    model: &Model,
    attribute: &Attribute,
) -> Result<List<Txt>, NoMemory>
    requires { IfSome attribute.now.sentence (HasVerb model.now) }
    ensures { IfOk result (λ all. all ≡ texts ++ texts_of model.now attribute.now) }
{
    let mut all = texts;
    all.push(Txt::from_str(alloc, attribute.phrase.as_str())?)?;
    if let Some(sentence) = &attribute.sentence {
        all.push(say(alloc, model, sentence, Form::Negative)?)?;
    }
    Ok(all)
}

/// Puts the phrases of all attributes behind others, and what denies them.
#[tactic(auto, using(opa_parse::proofs::NameLaws::operand_steps))]
fn with_operands(alloc: Global, texts: List<Txt>, model: &Model) -> Result<List<Txt>, NoMemory>
    ensures { IfOk result (λ all. all ≡ texts ++ operand_phrases model.now) }
{
    let mut all = texts;
    for place in 0..model.attribute_count() {
        all = with_texts(alloc, all, model, model.attribute(AttrId(place)))?;
    }
    Ok(all)
}

/// Puts the phrases of declared lists behind others.
#[tactic(auto, using(opa_parse::proofs::NameLaws::relation_steps))]
fn with_relations(alloc: Global, texts: List<Txt>, model: &Model) -> Result<List<Txt>, NoMemory>
    ensures { IfOk result (λ all. all ≡ texts ++ relation_phrases model.now) }
{
    let mut all = texts;
    for place in 0..model.relation_count() {
        let relation = model.relation(RelId(place));
        all.push(Txt::from_str(alloc, relation.phrase.as_str())?)?;
    }
    Ok(all)
}

/// Puts the phrases of membership blocks behind others.
fn with_inferred(
    alloc: Global,
    texts: List<Txt>,
    inferences: &[Inferred],
) -> Result<List<Txt>, NoMemory>
    ensures { IfOk result (λ all. all ≡ texts ++ inferred_phrases inferences.now) }
{
    let mut all = texts;
    let mut rest = inferences;
    while let Some((inferred, later)) = front(rest) {
        all.push(Txt::from_str(alloc, inferred.phrase.as_str())?)?;
        rest = later;
    }
    Ok(all)
}

/// The phrases of a model and of membership blocks are known.
fn known_with(alloc: Global, model: &Model, inferences: &[Inferred]) -> Result<Known, NoMemory>
    ensures { IfOk result (λ k. k.texts ≡ known_phrases model.now inferences.now) }
{
    let texts = with_operands(alloc, List::new(alloc), model)?;
    let texts = with_relations(alloc, texts, model)?;
    let texts = with_inferred(alloc, texts, inferences)?;
    known_as(alloc, texts)
}

/// What blocks that declare a model make known.
fn known_by(alloc: Global, model: &Model, blocks: &[Block]) -> Result<Known, NoMemory>
    requires short { All (λ b. AreShort b.lines) blocks.now }
    requires declared { Declares blocks.now model.now }
    ensures { IfOk result (λ k. AreKnownIn blocks.now k.texts) }
{
    match read_inferences(alloc, model, blocks) {
        Ok(inferences) => known_with(alloc, model, inferences.as_slice()),
        Err(RbError::Refused(_)) => known_with(alloc, model, &[]),
        Err(RbError::NoMemory) => Err(NoMemory),
    }
}

/// What blocks make known.
fn known_in(alloc: Global, blocks: &[Block]) -> Result<Known, NoMemory>
    requires { All (λ b. AreShort b.lines) blocks.now }
    ensures { IfOk result (λ k. AreKnownIn blocks.now k.texts) }
{
    match read_declarations(alloc, blocks) {
        Ok(model) => known_by(alloc, &model, blocks),
        Err(RbError::Refused(_)) => known_as(alloc, List::new(alloc)),
        Err(RbError::NoMemory) => Err(NoMemory),
    }
}

/// What files make known, whatever is wrong with rules, goals and screens.
pub(crate) fn known_of(alloc: Global, files: &[SourceFile]) -> Result<Known, NoMemory>
    requires texts { All (λ (f : FileView). length f.text ≤ 8388608) files.now }
    requires few { length files.now ≤ 101 }
    ensures { IfOk result (λ k. AreKnown files.now k.texts) }
{
    match lay_out(alloc, files) {
        Ok(laid) => known_in(alloc, declaring(laid).as_slice()),
        Err(RbError::Refused(_)) => known_as(alloc, List::new(alloc)),
        Err(RbError::NoMemory) => Err(NoMemory),
    }
}
