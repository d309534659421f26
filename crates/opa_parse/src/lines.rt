// The lines that are left of a block.
ghost use Rattle.std.specs.Prelude.{◌≡◌};

use crate::Line;
use opa_io::{List, NoMemory};
use std::alloc::Global;
use std::marker::Model;

/// The lines that are left, which contracts see in their order. The first one is taken in no time.
#[derive(Drop)]
pub struct Lines {
    backward: List<Line>,
}

impl Model for Lines {
    ghost use Rattle.std.specs.Prelude.{List as Seq, reverse};
    ghost use Rattle.std.specs.Coded.{coded_list};
    ghost use Rattle.opa_parse.specs.declared.line.Line.{Line as Each};
    ghost use Rattle.opa_parse.specs.contracts.line.Line as each;

    ghost Value = { Seq Each };

    ghost coded = { coded_list each.the_row.coded };

    ghost view = { λ l. reverse l.backward };
}

impl Lines {
    ghost use Rattle.std.specs.Prelude.{◌≡◌, ◌+◌, ◌∷◌, [], Some, None, MatchOption, OnOk, if◌then◌else◌};
    ghost use Rattle.opa_parse.specs.Groups.{is_deeper, is_above};
    ghost use Rattle.opa_parse.specs.Statements.{is_over};

    pub fn none(alloc: Global) -> Lines
        ensures { result ≡ [] }
    {
        Lines {
            backward: List::new(alloc),
        }
    }

    /// Puts a line before the others.
    #[tactic(auto, using(opa_sentence::proofs::Machine::reversed))]
    pub fn put_first(&mut self, line: Line) -> Result<(), NoMemory>
        ensures { OnOk result (self.new ≡ line ∷ self.old) }
    {
        self.backward.push(line)?;
        Ok(())
    }

    /// The first line, and the others.
    #[tactic(auto, using(opa_sentence::proofs::Machine::reversed))]
    pub fn first(self) -> Option<(Line, Lines)>
        ensures { MatchOption result (self ≡ []) (λ x. self ≡ x.0 ∷ x.1) }
    {
        let mut backward = self.backward;
        match backward.pop() {
            None => None,
            Some(line) => Some((line, Lines { backward })),
        }
    }

    /// One level more than this, where the next line is deeper.
    #[tactic(auto, using(opa_sentence::proofs::Machine::reversed))]
    pub fn level_below(&self, level: u32) -> Option<u32>
        ensures { result ≡ (if is_deeper level self.now then Some (level + 1) else None) }
    {
        match self.backward.as_slice() {
            [] => None,
            [.., line] => {
                if line.level > level {
                    Some(level + 1)
                } else {
                    None
                }
            }
        }
    }

    /// Whether the next line stands above this level, or there is none.
    #[tactic(auto, using(opa_sentence::proofs::Machine::reversed))]
    pub fn is_above(&self, level: u32) -> bool
        ensures { result ≡ is_above level self.now }
    {
        match self.backward.as_slice() {
            [] => true,
            [.., line] => line.level < level,
        }
    }

    #[tactic(auto, using(opa_sentence::proofs::Machine::reversed))]
    pub fn is_over(&self) -> bool
        ensures { result ≡ is_over self.now }
    {
        match self.backward.as_slice() {
            [] => true,
            [.., _] => false,
        }
    }
}
