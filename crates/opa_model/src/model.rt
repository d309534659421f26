// All that is declared, and look-ups.
ghost use Rattle.std.specs.Prelude.{◌≡◌, ◌≢◌, ◌<◌, ◌↔◌, ◌++◌, [], ◌∷◌, length, map, slice_get, Some, AllPairs, Contains, IfOk, IfSome, IsNone, OnOk};
ghost use Rattle.opa_model.specs.Lookups.{entity_at, attribute_at, relation_at, verb_at, screen_at, goal_at, attribute_phrases, relation_phrases, attribute_named, relation_named};
ghost use Rattle.opa_model.specs.Models.{IsModel, HasEntity, HasAttribute, HasRelation};

use crate::phrases::PhraseSet;
use crate::{AttrId, Attribute, Entity, EntityId, Lists, RelId, Relation, Screen, Verb};
use opa_io::{List, NoMemory, Txt};
use std::alloc::Global;

/// Whether each attribute has a rule, in declared order.
pub type Ruled = List<bool>;

/// What is declared.
#[derive(Drop)]
pub struct Model {
    lists: Lists,
    attribute_places: PhraseSet,
    relation_places: PhraseSet,
}

impl std::marker::Model for Model {
    ghost use Rattle.std.specs.Prelude.{◌≡◌};
    ghost use Rattle.opa_model.specs.declared.lists.Lists.{Lists as Declared};
    ghost use Rattle.opa_model.specs.Lookups.{attribute_phrases, relation_phrases};
    ghost use Rattle.opa_model.specs.Models.{IsModel};

    ghost Value = { Declared };

    ghost view = { λ m. m.lists };

    ghost invariant = { λ m. IsModel m.lists × (m.attribute_places ≡ attribute_phrases m.lists) ×
        (m.relation_places ≡ relation_phrases m.lists) };
}

impl Model {
    /// The model of these lists.
    pub fn from_lists(
        alloc: Global,
        entities: List<Entity>,
        attributes: List<Attribute>,
        relations: List<Relation>,
        verbs: List<Verb>,
        screens: List<Screen>,
        goals: List<AttrId>,
    ) -> Result<Model, NoMemory>
        requires { IsModel (record {
          entities = entities;
          attributes = attributes;
          relations = relations;
          verbs = verbs;
          screens = screens;
          goals = goals;
        }) }
        ensures { IfOk result (λ m. m ≡ record {
          entities = entities;
          attributes = attributes;
          relations = relations;
          verbs = verbs;
          screens = screens;
          goals = goals;
        }) }
    {
        Ok(Model {
            attribute_places: attribute_set(alloc, attributes.as_slice())?,
            relation_places: relation_set(alloc, relations.as_slice())?,
            lists: Lists {
                entities,
                attributes,
                relations,
                verbs,
                screens,
                goals,
            },
        })
    }

    pub fn entity(&self, id: EntityId) -> &Entity
        requires { HasEntity self.now id }
        ensures { entity_at self.now id ≡ Some result.now }
    {
        &self.lists.entities.as_slice()[id.0 as usize]
    }

    pub fn attribute(&self, id: AttrId) -> &Attribute
        requires { HasAttribute self.now id }
        ensures { attribute_at self.now id ≡ Some result.now }
    {
        &self.lists.attributes.as_slice()[id.0 as usize]
    }

    pub fn relation(&self, id: RelId) -> &Relation
        requires { HasRelation self.now id }
        ensures { relation_at self.now id ≡ Some result.now }
    {
        &self.lists.relations.as_slice()[id.0 as usize]
    }

    pub fn verb(&self, n: u32) -> &Verb
        requires { n < length self.now.verbs }
        ensures { verb_at self.now n ≡ Some result.now }
    {
        &self.lists.verbs.as_slice()[n as usize]
    }

    pub fn screen(&self, n: u32) -> &Screen
        requires { n < length self.now.screens }
        ensures { screen_at self.now n ≡ Some result.now }
    {
        &self.lists.screens.as_slice()[n as usize]
    }

    pub fn goal(&self, n: u32) -> AttrId
        requires { n < length self.now.goals }
        ensures { goal_at self.now n ≡ Some result }
    {
        self.lists.goals.as_slice()[n as usize]
    }
}

impl Model {
    pub fn entity_count(&self) -> u32
        ensures count { result ≡ length self.now.entities }
        ensures form { IsModel self.now }
    {
        self.lists.entities.as_slice().len() as u32
    }

    pub fn attribute_count(&self) -> u32
        ensures count { result ≡ length self.now.attributes }
        ensures form { IsModel self.now }
    {
        self.lists.attributes.as_slice().len() as u32
    }

    pub fn relation_count(&self) -> u32
        ensures count { result ≡ length self.now.relations }
        ensures form { IsModel self.now }
    {
        self.lists.relations.as_slice().len() as u32
    }

    pub fn verb_count(&self) -> u32
        ensures count { result ≡ length self.now.verbs }
        ensures form { IsModel self.now }
    {
        self.lists.verbs.as_slice().len() as u32
    }

    pub fn screen_count(&self) -> u32
        ensures count { result ≡ length self.now.screens }
        ensures form { IsModel self.now }
    {
        self.lists.screens.as_slice().len() as u32
    }

    pub fn goal_count(&self) -> u32
        ensures count { result ≡ length self.now.goals }
        ensures form { IsModel self.now }
    {
        self.lists.goals.as_slice().len() as u32
    }
}

impl Model {
    /// The attribute whose phrase is this text. It takes no walk over the phrases.
    pub fn find_attribute(&self, phrase: &str) -> Option<AttrId>
        ensures value { result ≡ attribute_named self.now phrase.now }
        ensures found { IfSome result (λ id. slice_get (attribute_phrases self.now) id.0 ≡ Some phrase.now) }
        ensures none { IsNone result ↔ ¬ (Contains (attribute_phrases self.now) phrase.now) }
    {
        let place = self.attribute_places.find(phrase.as_bytes())?;
        Some(AttrId(place as u32))
    }

    /// The relation whose phrase is this text. It takes no walk over the phrases.
    pub fn find_relation(&self, phrase: &str) -> Option<RelId>
        ensures value { result ≡ relation_named self.now phrase.now }
        ensures found { IfSome result (λ id. slice_get (relation_phrases self.now) id.0 ≡ Some phrase.now) }
        ensures none { IsNone result ↔ ¬ (Contains (relation_phrases self.now) phrase.now) }
    {
        let place = self.relation_places.find(phrase.as_bytes())?;
        Some(RelId(place as u32))
    }
}

/// The phrases of attributes.
fn attribute_set(alloc: Global, attributes: &[Attribute]) -> Result<PhraseSet, NoMemory>
    requires { AllPairs (λ p q. p ≢ q) (map (λ a. a.phrase) attributes.now) }
    ensures { IfOk result (λ set. set ≡ map (λ a. a.phrase) attributes.now) }
{
    let mut set = PhraseSet::new(alloc);
    for attribute in attributes {
        add_phrase(alloc, &mut set, &attribute.phrase)?;
    }
    Ok(set)
}

/// The phrases of relations.
fn relation_set(alloc: Global, relations: &[Relation]) -> Result<PhraseSet, NoMemory>
    requires { AllPairs (λ p q. p ≢ q) (map (λ r. r.phrase) relations.now) }
    ensures { IfOk result (λ set. set ≡ map (λ r. r.phrase) relations.now) }
{
    let mut set = PhraseSet::new(alloc);
    for relation in relations {
        add_phrase(alloc, &mut set, &relation.phrase)?;
    }
    Ok(set)
}

/// Adds a phrase that isn't there yet.
fn add_phrase(alloc: Global, set: &mut PhraseSet, phrase: &Txt) -> Result<(), NoMemory>
    requires { ¬ (Contains set.old phrase.now) }
    ensures { OnOk result (set.new ≡ set.old ++ phrase.now ∷ []) }
{
    set.declare(phrase.as_str().as_bytes().to_vec(alloc)?)?;
    Ok(())
}
