// What the phrases of a model, and those of inferred relations, stand for.
ghost use Rattle.std.specs.Prelude.{ℕ, true, false, [], ◌≡◌, ◌+◌, ◌<◌, ◌^◌, ◌∷◌, ◌++◌, length, map, flat_map, IfOk, IfSome, OnOk};
ghost use Rattle.opa_model.specs.Lookups.{attribute_at, relation_phrases};
ghost use Rattle.opa_model.specs.Models.{HasVerb};
ghost use Rattle.opa_parse.specs.Naming.{operand_meanings, operand as operand_of, inferred_phrases, declared_from, inferred_from, member_of as member_of_inferred, names_in};
ghost use Rattle.opa_verbs.specs.Phrasing.{denials, texts_of, operand_phrases};

use opa_io::{List, NoMemory, Txt, front};
use opa_model::{AttrId, Attribute, Model, RelId};
use opa_sentence::{Member, Names, Operand, Relation};
use opa_tree::{Inferences, Inferred};
use opa_verbs::{Form, say};
use opa_words::Phrases;
use std::alloc::Global;

/// Texts that stand for attributes, each with what it stands for.
#[derive(Drop)]
pub struct Operands {
    pub texts: List<Txt>,
    pub meanings: List<Operand>,
}

impl Operands {
    /// The attribute of this place, and what denies it.
    fn take(
        &mut self,
        alloc: Global,
        model: &Model,
        attr: AttrId,
        attribute: &Attribute,
    ) -> Result<(), NoMemory>
        requires { IfSome attribute.now.sentence (HasVerb model.now) }
        ensures texts { OnOk result (self.new.texts ≡ self.old.texts ++ texts_of model.now attribute.now) }
        ensures meanings { OnOk result (self.new.meanings ≡ self.old.meanings ++ (operand_of attr.0 false ∷ map (λ t. operand_of attr.0 true) (denials model.now attribute.now))) }
    {
        self.texts
            .push(Txt::from_str(alloc, attribute.phrase.as_str())?)?;
        self.meanings.push(Operand {
            attr,
            denied: false,
        })?;
        match &attribute.sentence {
            None => Ok(()),
            Some(sentence) => {
                self.texts
                    .push(say(alloc, model, sentence, Form::Negative)?)?;
                self.meanings.push(Operand { attr, denied: true })?;
                Ok(())
            }
        }
    }
}

/// All texts that stand for attributes.
#[tactic(auto, using(crate::proofs::NameLaws::operand_steps))]
pub fn operands_of(alloc: Global, model: &Model) -> Result<Operands, NoMemory>
    ensures texts { IfOk result (λ o. o.texts ≡ operand_phrases model.now) }
    ensures meanings { IfOk result (λ o. o.meanings ≡ operand_meanings model.now) }
{
    let mut operands = Operands {
        texts: List::new(alloc),
        meanings: List::new(alloc),
    };
    for place in 0..model.attribute_count() {
        let attr = AttrId(place);
        operands.take(alloc, model, attr, model.attribute(attr))?;
    }
    Ok(operands)
}

/// Phrases of relations, each with what it stands for.
#[derive(Drop)]
pub struct Relations {
    pub texts: List<Txt>,
    pub related: List<Relation>,
}

impl Relations {
    fn put(&mut self, alloc: Global, phrase: &Txt, relation: Relation) -> Result<(), NoMemory>
        ensures texts { OnOk result (self.new.texts ≡ self.old.texts ++ phrase.now ∷ []) }
        ensures related { OnOk result (self.new.related ≡ self.old.related ++ relation ∷ []) }
    {
        self.texts.push(Txt::from_str(alloc, phrase.as_str())?)?;
        self.related.push(relation)?;
        Ok(())
    }

    /// The inferred relations besides.
    fn with_inferred(self, alloc: Global, inferences: &[Inferred]) -> Result<Relations, NoMemory>
        requires { length inferences.now < 2 ^ 32 }
        ensures texts { IfOk result (λ r. r.texts ≡ self.texts ++ inferred_phrases inferences.now) }
        ensures related { IfOk result (λ r. r.related ≡ self.related ++ inferred_from 0 inferences.now) }
    {
        let mut relations = self;
        let mut place = 0;
        let mut rest = inferences;
        while let Some((inferred, later)) = front(rest) {
            relations.put(alloc, &inferred.phrase, Relation::Inferred(place))?;
            place += 1;
            rest = later;
        }
        Ok(relations)
    }
}

/// The declared relations.
pub fn declared_relations(alloc: Global, model: &Model) -> Result<Relations, NoMemory>
    ensures texts { IfOk result (λ r. r.texts ≡ relation_phrases model.now) }
    ensures related { IfOk result (λ r. r.related ≡ declared_from 0 model.now.relations) }
{
    let mut relations = Relations {
        texts: List::new(alloc),
        related: List::new(alloc),
    };
    for place in 0..model.relation_count() {
        let rel = RelId(place);
        let phrase = &model.relation(rel).phrase;
        relations.put(alloc, phrase, Relation::Declared(rel))?;
    }
    Ok(relations)
}

fn member_of(alloc: Global, inferred: &Inferred) -> Result<Member, NoMemory>
    ensures { IfOk result (λ m. m ≡ member_of_inferred inferred.now) }
{
    Member::new(alloc, inferred.every, &inferred.expr)
}

fn members_of(alloc: Global, inferences: &[Inferred]) -> Result<List<Member>, NoMemory>
    ensures { IfOk result (λ members. members ≡ map member_of_inferred inferences.now) }
{
    let mut members = List::new(alloc);
    let mut rest = inferences;
    while let Some((inferred, later)) = front(rest) {
        members.push(member_of(alloc, inferred)?)?;
        rest = later;
    }
    Ok(members)
}

/// The texts as phrases that are looked up. So many that they can't be counted aren't held either.
fn phrases_of(alloc: Global, texts: &List<Txt>) -> Result<Phrases, NoMemory>
    ensures { IfOk result (λ phrases. phrases ≡ texts.now) }
{
    if texts.len() < 4_294_967_296 {
        Phrases::new(alloc, texts)
    } else {
        Err(NoMemory)
    }
}

/// The phrases of attributes and what denies them, and the phrases of relations, the inferred ones last, each with what it
/// stands for.
pub fn names_of(alloc: Global, model: &Model, inferences: &Inferences) -> Result<Names, NoMemory>
    ensures { IfOk result (λ names. names ≡ names_in model.now inferences.now) }
{
    if inferences.len() >= 4_294_967_296 {
        return Err(NoMemory);
    }
    let operands = operands_of(alloc, model)?;
    let relations = declared_relations(alloc, model)?;
    let relations = relations.with_inferred(alloc, inferences.as_slice())?;
    let Operands { texts, meanings } = operands;
    let Relations {
        texts: phrases,
        related,
    } = relations;
    Ok(Names {
        operands: phrases_of(alloc, &texts)?,
        meanings,
        relations: phrases_of(alloc, &phrases)?,
        related,
        members: members_of(alloc, inferences.as_slice())?,
    })
}
