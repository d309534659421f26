// The phrases of every model and the lines of all blocks are texts.
ghost use Rattle.std.specs.Prelude.{All, Some, flat_map};
ghost use Rattle.std.specs.Str.{IsUtf8};
ghost use Rattle.opa_model.specs.Lookups.{attribute_phrases, relation_phrases};
ghost use Rattle.opa_parse.specs.Naming.{inferred_phrases};
ghost use Rattle.opa_verbs.specs.Phrasing.{denials, denials_by};
ghost use Rattle.opa_wording.specs.Told.{AreTexts, OthersAreTexts};
ghost use Rattle.opa_wording.specs.ReadBack.{AreTextual};

use opa_io::{Txt, front};
use opa_model::{AttrId, Attribute, Model, RelId, Sentence};
use opa_tree::{Inferences, Inferred};
use opa_words::{Block, BlockLine};

/// A text is UTF-8.
fn is_text(text: &str)
    ensures { IsUtf8 text.now }
{}

fn is_utf8(text: &Txt)
    ensures { IsUtf8 text.now }
{
    is_text(text.as_str());
}

/// So is a sentence in its negative form.
#[tactic(auto, using(crate::proofs::TextsLaws::sentences))]
fn denial_is_text(model: &Model, sentence: &Sentence)
    ensures { All IsUtf8 (denials_by model.now (Some sentence.now)) }
{
    if sentence.verb < model.verb_count() {
        let verb = model.verb(sentence.verb);
        is_utf8(&sentence.subject);
        is_utf8(&verb.negative);
        is_utf8(&sentence.rest);
    }
}

#[tactic(auto, using(crate::proofs::TextsLaws::sentences))]
fn denials_are_texts(model: &Model, attribute: &Attribute)
    ensures { All IsUtf8 (denials model.now attribute.now) }
{
    match &attribute.sentence {
        None => {}
        Some(sentence) => denial_is_text(model, sentence),
    }
}

#[tactic(auto, using(crate::proofs::TextsLaws::loops))]
fn attributes_are_texts(model: &Model)
    ensures phrases { All IsUtf8 (attribute_phrases model.now) }
    ensures denials { All IsUtf8 (flat_map (denials model.now) model.now.attributes) }
{
    for place in 0..model.attribute_count() {
        let attribute = model.attribute(AttrId(place));
        is_utf8(&attribute.phrase);
        denials_are_texts(model, attribute);
    }
}

#[tactic(auto, using(crate::proofs::TextsLaws::loops))]
fn relations_are_texts(model: &Model)
    ensures { All IsUtf8 (relation_phrases model.now) }
{
    for place in 0..model.relation_count() {
        let relation = model.relation(RelId(place));
        is_utf8(&relation.phrase);
    }
}

#[tactic(auto, using(crate::proofs::TextsLaws::fronts))]
fn inferences_are_texts(inferences: &[Inferred])
    ensures { All IsUtf8 (inferred_phrases inferences.now) }
{
    let mut rest = inferences;
    while let Some((inferred, later)) = front(rest) {
        is_utf8(&inferred.phrase);
        rest = later;
    }
}

/// The phrases of a model and of inferred relations are UTF-8, and so are the sentences that deny attributes. It does nothing:
/// a caller has its clauses for what rules are read with.
pub fn phrases_are_texts(model: &Model, inferences: &Inferences)
    ensures texts { AreTexts model.now }
    ensures others { OthersAreTexts model.now inferences.now }
{
    attributes_are_texts(model);
    relations_are_texts(model);
    inferences_are_texts(inferences.as_slice());
}

#[tactic(auto, using(crate::proofs::TextsLaws::fronts))]
fn lines_are_texts(lines: &[BlockLine])
    ensures { All (λ l. IsUtf8 l.text) lines.now }
{
    let mut rest = lines;
    while let Some((line, later)) = front(rest) {
        is_utf8(&line.text);
        rest = later;
    }
}

/// The lines of blocks are UTF-8. It does nothing, as `phrases_are_texts`.
#[tactic(auto, using(crate::proofs::TextsLaws::fronts))]
pub fn blocks_are_texts(blocks: &[Block])
    ensures { AreTextual blocks.now }
{
    let mut rest = blocks;
    while let Some((block, later)) = front(rest) {
        lines_are_texts(block.lines.as_slice());
        rest = later;
    }
}
