// Inferred relations are read block by block.
ghost use Rattle.std.specs.Prelude.{ℕ, ◌≡◌, ◌++◌, List as Seq, [], All, true, IfOk, IfErr, OnOk};
ghost use Rattle.opa_tree.specs.declared.faults.RbError.TheVariants.{Refused};
ghost use Rattle.opa_tree.specs.declared.faults.RbFault.{RbFault as FaultView};
ghost use Rattle.opa_tree.specs.FirstFaults.{first_fault};
ghost use Rattle.opa_parse.specs.Blocks.{IsMembership};
ghost use Rattle.opa_parse.specs.Fronts.{AreShort};
ghost use Rattle.opa_parse.specs.Handed.{AreFormed, AreFlat};
ghost use Rattle.opa_parse.specs.MemberFaults.{is_taken_by, phrase_by, membership_nodes as membership_nodes_of, membership_faults, block_faults};
ghost use Rattle.opa_parse.specs.Memberships.{listed_inferred, inferred_from, inferred_by, declared_texts as declared_texts_of, AreInferences, AreRefused};
ghost use Rattle.opa_parse.specs.MemberRuns.{AreSame, IsGathered, Gathers, Goes, GathersAll};
ghost use Rattle.opa_parse.specs.Rules.{first_number as first_number_of};

use crate::blocks::membership_of;
use crate::faults::{Place, fault_at, marked, more_than, size_fault, when};
use crate::names::{declared_relations, names_of, operands_of};
use crate::openings::sort_of;
use crate::rules::{first_number, tree_of};
use crate::texts::Texts;
use crate::{BlockSort, MemberBlock, Membership};
use opa_io::limits::{MOST_NODES, MOST_PHRASE};
use opa_io::{List, NoMemory, Txt, front};
use opa_model::{Model, RelId};
use opa_sentence::Names;
use opa_tree::{Expr, Inferences, Inferred, RbError, RbFault, RbKind, first_of};
use opa_words::Block;
use std::alloc::Global;

/// What was read of membership blocks so far: their first fault, and else the inferred relations; the texts that are taken;
/// and how many nodes there are, or one more than the most.
#[derive(Drop)]
pub struct Gathered {
    pub first: Option<RbFault>,
    pub inferences: List<Inferred>,
    pub texts: Texts,
    pub nodes: u32,
}

/// What a membership block says.
fn member_block(
    alloc: Global,
    model: &Model,
    names: &Names,
    block: &Block,
) -> Result<MemberBlock, NoMemory>
    requires { AreShort block.now.lines }
    ensures file { IfOk result (λ r. r.file ≡ block.now.file) }
    ensures line { IfOk result (λ r. r.line ≡ first_number_of block.now.lines) }
    ensures says { IfOk result (λ r. IsMembership model.now names.now block.now.lines r.membership) }
{
    let lines = block.lines.as_slice();
    Ok(MemberBlock {
        file: block.file,
        line: first_number(lines),
        membership: membership_of(alloc, model, names, lines)?,
    })
}

/// The inferred relation of a membership block, if it has one.
fn inferred_in(membership: Option<Membership>) -> Option<Inferred>
    ensures { listed_inferred result ≡ inferred_by membership }
{
    match membership {
        None => None,
        Some(membership) => {
            let Membership {
                phrase,
                every,
                said,
            } = membership;
            inferred_from_parts(phrase, every, tree_of(said))
        }
    }
}

fn inferred_from_parts(phrase: Txt, every: Option<RelId>, tree: Option<Expr>) -> Option<Inferred>
    ensures { listed_inferred result ≡ inferred_from phrase every tree }
{
    match (every, tree) {
        (Some(every), Some(expr)) => Some(Inferred {
            phrase,
            every,
            expr,
        }),
        _ => None,
    }
}

fn membership_nodes(membership: &Option<Membership>) -> u32
    ensures { result ≡ membership_nodes_of membership.now }
{
    match membership {
        None => 0,
        Some(membership) => membership.said.reading.measure.nodes,
    }
}

/// The first fault of what a membership block says, whose phrase is taken or isn't, where so many nodes stand before.
fn membership_fault(
    alloc: Global,
    is_taken: bool,
    nodes: u32,
    place: Place,
    membership: &Membership,
) -> Option<RbFault>
    ensures { result ≡ first_fault (membership_faults is_taken nodes place.file place.line membership.now) }
{
    let is_long = membership.phrase.as_str().len() > MOST_PHRASE;
    let long = when(alloc, is_long, place, RbKind::Limit);
    let size = size_fault(alloc, nodes, place, &membership.said.reading);
    let unnamed = when(alloc, membership.every.is_none(), place, RbKind::Name);
    let marks = marked(alloc, place.file, membership.said.marks.as_slice());
    let twice = when(alloc, is_taken, place, RbKind::Twice);
    first_of(
        first_of(long, size),
        first_of(first_of(unnamed, marks), twice),
    )
}

/// The first fault of a membership block, whose phrase is taken or isn't, where so many nodes stand before.
fn member_fault(alloc: Global, is_taken: bool, nodes: u32, block: &MemberBlock) -> Option<RbFault>
    ensures { result ≡ first_fault (block_faults is_taken nodes block.now) }
{
    let place = Place {
        file: block.file,
        line: block.line,
    };
    match &block.membership {
        None => Some(fault_at(alloc, place, RbKind::Syntax)),
        Some(membership) => membership_fault(alloc, is_taken, nodes, place, membership),
    }
}

impl Texts {
    /// Takes the phrase of a membership block, and answers whether it was taken before.
    #[tactic(auto, using(crate::proofs::MemberLaws::same_steps))]
    fn take(&mut self, alloc: Global, membership: &Option<Membership>) -> Result<bool, NoMemory>
        ensures taken { IfOk result (λ taken. taken ≡ is_taken_by self.old membership.now) }
        ensures texts { OnOk result (AreSame self.new (self.old ++ phrase_by membership.now)) }
    {
        match membership {
            None => Ok(false),
            Some(membership) => Ok(!self.add(alloc, membership.phrase.as_str())?),
        }
    }

    #[tactic(auto, using(crate::proofs::MemberLaws::same_steps))]
    fn add_all(&mut self, alloc: Global, texts: &[Txt]) -> Result<(), NoMemory>
        ensures { OnOk result (AreSame self.new (self.old ++ texts.now)) }
    {
        let mut rest = texts;
        while let Some((text, later)) = front(rest) {
            self.add(alloc, text.as_str())?;
            rest = later;
        }
        Ok(())
    }
}

/// The texts that no inferred relation may have as its phrase.
#[tactic(auto, using(crate::proofs::MemberLaws::same_steps))]
fn declared_texts(alloc: Global, model: &Model) -> Result<Texts, NoMemory>
    ensures { IfOk result (λ texts. AreSame texts (declared_texts_of model.now)) }
{
    let mut texts = Texts::new(alloc);
    let operands = operands_of(alloc, model)?;
    texts.add_all(alloc, operands.texts.as_slice())?;
    let relations = declared_relations(alloc, model)?;
    texts.add_all(alloc, relations.texts.as_slice())?;
    Ok(texts)
}

/// The inferred relations with that of a block, where no fault was found.
fn with_inferred(
    inferences: List<Inferred>,
    is_sound: bool,
    membership: Option<Membership>,
) -> Result<List<Inferred>, NoMemory>
    ensures { IfOk result (λ all. is_sound ≡ true → all ≡ inferences ++ inferred_by membership) }
{
    if is_sound {
        with_listed(inferences, inferred_in(membership))
    } else {
        Ok(inferences)
    }
}

#[tactic(auto, using(crate::proofs::MemberLaws::nothing_more))]
fn with_listed(
    inferences: List<Inferred>,
    inferred: Option<Inferred>,
) -> Result<List<Inferred>, NoMemory>
    ensures { IfOk result (λ all. all ≡ inferences ++ listed_inferred inferred) }
{
    match inferred {
        None => Ok(inferences),
        Some(inferred) => {
            let mut inferences = inferences;
            inferences.push(inferred)?;
            Ok(inferences)
        }
    }
}

impl Gathered {
    fn none(alloc: Global, texts: Texts) -> Gathered
        ensures { (declared : Seq (Seq ℕ)) → AreSame texts declared → IsGathered declared [] result }
    {
        Gathered {
            first: None,
            inferences: List::new(alloc),
            texts,
            nodes: 0,
        }
    }

    /// One more membership block.
    fn take(self, alloc: Global, block: MemberBlock) -> Result<Gathered, NoMemory>
        ensures { IfOk result (Gathers block self) }
    {
        let Gathered {
            first,
            inferences,
            texts,
            nodes,
        } = self;
        let mut texts = texts;
        let is_taken = texts.take(alloc, &block.membership)?;
        let fault = member_fault(alloc, is_taken, nodes, &block);
        let more = membership_nodes(&block.membership);
        let first = first_of(first, fault);
        Ok(Gathered {
            inferences: with_inferred(inferences, first.is_none(), block.membership)?,
            first,
            texts,
            nodes: more_than(nodes, more, MOST_NODES),
        })
    }
}

/// Takes a block, if it is a membership block.
fn gather_block(
    alloc: Global,
    model: &Model,
    names: &Names,
    block: &Block,
    gathered: Gathered,
) -> Result<Gathered, NoMemory>
    requires { AreShort block.now.lines }
    ensures { IfOk result (Goes model.now names.now block.now gathered) }
{
    match sort_of(alloc, block.lines.as_slice())? {
        BlockSort::Members => {
            let members = member_block(alloc, model, names, block)?;
            let next = gathered.take(alloc, members)?;
            Ok(next)
        }
        BlockSort::Declaration => Ok(gathered),
        BlockSort::Rule => Ok(gathered),
    }
}

/// Takes the membership blocks among blocks.
fn gather_blocks(
    alloc: Global,
    model: &Model,
    names: &Names,
    blocks: &[Block],
    gathered: Gathered,
) -> Result<Gathered, NoMemory>
    requires { All (λ b. AreShort b.lines) blocks.now }
    ensures { IfOk result (GathersAll model.now names.now blocks.now gathered) }
{
    let mut next = gathered;
    let mut rest = blocks;
    while let Some((block, later)) = front(rest) {
        next = gather_block(alloc, model, names, block, next)?;
        rest = later;
    }
    Ok(next)
}

/// The inferred relations of the blocks in their order. Blocks of declarations and rules are passed over.
pub fn read_inferences(
    alloc: Global,
    model: &Model,
    blocks: &[Block],
) -> Result<Inferences, RbError>
    requires short { All (λ b. AreShort b.lines) blocks.now }
    ensures inferences { IfOk result (AreInferences model.now blocks.now) }
    ensures refused { IfErr result (λ e. (fault : FaultView) → e ≡ Refused fault →
        AreRefused model.now blocks.now fault) }
    // What `read_rules` asks of them, to hand on the same of rules.
    ensures formed { IfOk result AreFormed }
    ensures shallow { IfOk result AreFlat }
{
    let inferred = List::new(alloc);
    let names = names_of(alloc, model, &inferred)?;
    let texts = declared_texts(alloc, model)?;
    let none = Gathered::none(alloc, texts);
    let gathered = gather_blocks(alloc, model, &names, blocks, none)?;
    let Gathered {
        first,
        inferences,
        ..
    } = gathered;
    match first {
        None => Ok(inferences),
        Some(fault) => Err(RbError::Refused(fault)),
    }
}
