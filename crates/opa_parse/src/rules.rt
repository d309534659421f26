// Rules are read block by block.
ghost use Rattle.std.specs.Prelude.{ℕ, ◌≡◌, ◌+◌, ◌++◌, ◌≤◌, length, min, map, true, [], All, IfOk, IfErr};
ghost use Rattle.opa_tree.specs.declared.faults.RbError.TheVariants.{Refused};
ghost use Rattle.opa_tree.specs.declared.faults.RbFault.{RbFault as FaultView};
ghost use Rattle.opa_io.specs.declared.limits.TheConstants.{MOST_NODES as MOST_NODES_OF};
ghost use Rattle.opa_tree.specs.Accepted.{HaveForm, AreShallow};
ghost use Rattle.opa_parse.specs.Fronts.{AreShort};
ghost use Rattle.opa_parse.specs.Handed.{AreFormed, AreDeclared, AreFiledAs};
ghost use Rattle.opa_parse.specs.RuleFaults.{statement_nodes as statement_nodes_of};
ghost use Rattle.opa_sentence.specs.Measures.{total, nodes as nodes_of};
ghost use Rattle.opa_parse.specs.Blocks.{IsStatement};
ghost use Rattle.opa_parse.specs.Rules.{first_number as first_number_of, listed_rule, rule_from, rule_in as rule_in_block, AreRules, AreRefused};
ghost use Rattle.opa_parse.specs.Runs.{IsTaken, Takes, Goes, TakesAll};

use crate::blocks::statement_of;
use crate::faults::{more_than, rule_fault};
use crate::names::names_of;
use crate::openings::sort_of;
use crate::{BlockSort, RuleBlock, Said, Statement};
use opa_io::limits::{MOST_NODES, MOST_RULES};
use opa_io::{List, NoMemory, front};
use opa_model::{AttrId, Model};
use opa_sentence::{Member, Names};
use opa_tree::{Expr, Inferences, RbError, RbFault, Rule, Rules, first_of};
use opa_words::{Block, BlockLine};
use std::alloc::Global;

/// What was read of rules so far: their first fault, and else the rules; how many rules and nodes there are, or one more
/// than the most.
#[derive(Drop)]
pub struct Taken {
    pub first: Option<RbFault>,
    pub rules: List<Rule>,
    pub count: u32,
    pub nodes: u32,
}

pub fn first_number(lines: &[BlockLine]) -> u32
    ensures { result ≡ first_number_of lines.now }
{
    match front(lines) {
        None => 0,
        Some((line, _)) => line.line,
    }
}

/// What a block says that is a rule.
fn rule_block(
    alloc: Global,
    model: &Model,
    names: &Names,
    block: &Block,
) -> Result<RuleBlock, NoMemory>
    requires { AreShort block.now.lines }
    ensures file { IfOk result (λ r. r.file ≡ block.now.file) }
    ensures line { IfOk result (λ r. r.line ≡ first_number_of block.now.lines) }
    ensures says { IfOk result (λ r. IsStatement model.now names.now block.now.lines r.statement) }
{
    let lines = block.lines.as_slice();
    Ok(RuleBlock {
        file: block.file,
        line: first_number(lines),
        statement: statement_of(alloc, model, names, lines)?,
    })
}

/// The rule of a block, if it has one.
fn rule_in(block: RuleBlock) -> Option<Rule>
    ensures { listed_rule result ≡ rule_in_block block }
{
    let RuleBlock {
        file,
        line,
        statement,
    } = block;
    match statement {
        None => None,
        Some(statement) => {
            let Statement { attr, by_if, said } = statement;
            rule_from_parts(file, line, attr, by_if, tree_of(said))
        }
    }
}

pub fn tree_of(said: Said) -> Option<Expr>
    ensures { result ≡ said.reading.tree }
{
    said.reading.tree
}

fn rule_from_parts(
    file: u32,
    line: u32,
    attr: Option<AttrId>,
    by_if: bool,
    tree: Option<Expr>,
) -> Option<Rule>
    ensures { listed_rule result ≡ rule_from file line attr tree by_if }
{
    match (attr, tree) {
        (Some(attr), Some(expr)) => Some(Rule {
            attr,
            expr,
            file,
            line,
            by_if,
        }),
        _ => None,
    }
}

fn statement_nodes(statement: &Option<Statement>) -> u32
    ensures { result ≡ statement_nodes_of statement.now }
{
    match statement {
        None => 0,
        Some(statement) => statement.said.reading.measure.nodes,
    }
}

impl Taken {
    /// No rule yet, where so many nodes stand before, or one more than the most.
    pub fn none(alloc: Global, nodes: u32) -> Taken
        ensures { (start : ℕ) → nodes ≡ min start (MOST_NODES_OF + 1) → IsTaken start [] result }
    {
        Taken {
            first: None,
            rules: List::new(alloc),
            count: 0,
            nodes,
        }
    }

    /// One more rule.
    pub fn take(self, alloc: Global, block: RuleBlock) -> Result<Taken, NoMemory>
        ensures { IfOk result (Takes block self) }
    {
        let Taken {
            first,
            rules,
            count,
            nodes,
        } = self;
        let fault = rule_fault(alloc, count, nodes, &block);
        let more = statement_nodes(&block.statement);
        let first = first_of(first, fault);
        Ok(Taken {
            rules: with_rule(rules, first.is_none(), block)?,
            first,
            count: more_than(count, 1, MOST_RULES),
            nodes: more_than(nodes, more, MOST_NODES),
        })
    }
}

/// The rules with that of a block, where no fault was found.
fn with_rule(rules: List<Rule>, is_sound: bool, block: RuleBlock) -> Result<List<Rule>, NoMemory>
    ensures { IfOk result (λ all. is_sound ≡ true → all ≡ rules ++ rule_in_block block) }
{
    if is_sound {
        with_listed(rules, rule_in(block))
    } else {
        Ok(rules)
    }
}

#[tactic(auto, using(crate::proofs::RuleLaws::nothing_more))]
fn with_listed(rules: List<Rule>, rule: Option<Rule>) -> Result<List<Rule>, NoMemory>
    ensures { IfOk result (λ all. all ≡ rules ++ listed_rule rule) }
{
    match rule {
        None => Ok(rules),
        Some(rule) => {
            let mut rules = rules;
            rules.push(rule)?;
            Ok(rules)
        }
    }
}

/// Takes a block, if it is a rule.
fn take_block(
    alloc: Global,
    model: &Model,
    names: &Names,
    block: &Block,
    taken: Taken,
) -> Result<Taken, NoMemory>
    requires { AreShort block.now.lines }
    ensures { IfOk result (Goes model.now names.now block.now taken) }
{
    match sort_of(alloc, block.lines.as_slice())? {
        BlockSort::Rule => {
            let rule = rule_block(alloc, model, names, block)?;
            let next = taken.take(alloc, rule)?;
            Ok(next)
        }
        BlockSort::Declaration => Ok(taken),
        BlockSort::Members => Ok(taken),
    }
}

/// Takes the rules among blocks.
pub fn take_blocks(
    alloc: Global,
    model: &Model,
    names: &Names,
    blocks: &[Block],
    taken: Taken,
) -> Result<Taken, NoMemory>
    requires { All (λ b. AreShort b.lines) blocks.now }
    ensures { IfOk result (TakesAll model.now names.now blocks.now taken) }
{
    let mut next = taken;
    let mut rest = blocks;
    while let Some((block, later)) = front(rest) {
        next = take_block(alloc, model, names, block, next)?;
        rest = later;
    }
    Ok(next)
}

/// The nodes of the members' trees as they are written, or one more than the most.
pub fn inferred_nodes(members: &[Member]) -> u32
    ensures { result ≡ min (total (map (λ m. nodes_of m.expr) members.now)) (MOST_NODES_OF + 1) }
{
    let mut nodes = 0;
    let mut rest = members;
    while let Some((member, later)) = front(rest) {
        nodes = more_nodes(nodes, member);
        rest = later;
    }
    nodes
}

fn more_nodes(before: u32, member: &Member) -> u32
    ensures { result ≡ min (before + nodes_of member.now.expr) (MOST_NODES_OF + 1) }
{
    more_than(before, member.nodes, MOST_NODES)
}

/// The rules of the blocks in their order. Blocks of declarations and of members are passed over. The blocks are those of
/// all files; the main file is file 0.
pub fn read_rules(
    alloc: Global,
    model: &Model,
    inferences: &Inferences,
    blocks: &[Block],
) -> Result<Rules, RbError>
    requires short { All (λ b. AreShort b.lines) blocks.now }
    ensures rules { IfOk result (AreRules model.now inferences.now blocks.now) }
    ensures refused { IfErr result (λ e. (fault : FaultView) → e ≡ Refused fault →
        AreRefused model.now inferences.now blocks.now fault) }
    // What is asked of rules that are checked, and of a rulebase.
    ensures formed { IfOk result (λ rules. AreFormed inferences.now → HaveForm rules) }
    ensures shallow { IfOk result (λ rules. AreFormed inferences.now → AreShallow rules) }
    ensures declared { IfOk result (AreDeclared model.now) }
    ensures filed { IfOk result (AreFiledAs blocks.now) }
    ensures few { IfOk result (λ rules. length rules ≤ 4000) }
{
    let names = names_of(alloc, model, inferences)?;
    let none = Taken::none(alloc, inferred_nodes(names.members.as_slice()));
    let taken = take_blocks(alloc, model, &names, blocks, none)?;
    let Taken { first, rules, .. } = taken;
    match first {
        None => Ok(Rules::from_list(rules)),
        Some(fault) => Err(RbError::Refused(fault)),
    }
}
