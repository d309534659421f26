// What is counted in a part of a line.
ghost use Rattle.std.specs.Prelude.{◌≡◌, ◌+◌, ◌<◌, min};
ghost use Rattle.opa_sentence.specs.Measures.{of_none, of_leaf, beside as beside_of, above as above_of, inside as inside_of, without_name as unnamed_of, fits as fits_in, capped};

use opa_io::limits::{MOST_DEPTH, MOST_NESTING, MOST_NODES};

/// The depth and the nodes of a tree, the nesting of its text, whether all its operands and relations are declared, and
/// whether all its texts are short enough. A number over its bound is told as the bound and one.
#[derive(Clone, Copy, Debug, PartialEq, Eq)]
pub struct Measure {
    pub depth: u32,
    pub nodes: u32,
    pub nesting: u32,
    pub named: bool,
    pub short: bool,
}

impl Measure {
    /// Of no parts.
    pub fn none() -> Measure
        ensures { result ≡ of_none }
    {
        Measure {
            depth: 0,
            nodes: 0,
            nesting: 0,
            named: true,
            short: true,
        }
    }

    /// Of a tree without parts.
    pub fn leaf() -> Measure
        ensures { result ≡ of_leaf }
    {
        Measure {
            depth: 1,
            nodes: 1,
            nesting: 0,
            named: true,
            short: true,
        }
    }

    /// Of parts beside one another.
    pub fn beside(self, other: Measure) -> Measure
        ensures { result ≡ capped (beside_of self other) }
    {
        Measure {
            depth: capped_to(self.depth.max(other.depth), MOST_DEPTH),
            nodes: capped_to(self.nodes.saturating_add(other.nodes), MOST_NODES),
            nesting: capped_to(self.nesting.max(other.nesting), MOST_NESTING),
            named: self.named && other.named,
            short: self.short && other.short,
        }
    }

    /// Of a tree over its parts.
    pub fn above(self) -> Measure
        ensures { result ≡ capped (above_of self) }
    {
        Measure {
            depth: capped_to(self.depth.saturating_add(1), MOST_DEPTH),
            nodes: capped_to(self.nodes.saturating_add(1), MOST_NODES),
            nesting: capped_to(self.nesting, MOST_NESTING),
            named: self.named,
            short: self.short,
        }
    }

    /// Inside a bracket, a call or a prefix.
    pub fn inside(self) -> Measure
        ensures { result ≡ capped (inside_of self) }
    {
        Measure {
            depth: capped_to(self.depth, MOST_DEPTH),
            nodes: capped_to(self.nodes, MOST_NODES),
            nesting: capped_to(self.nesting.saturating_add(1), MOST_NESTING),
            named: self.named,
            short: self.short,
        }
    }

    /// With something that isn't declared.
    pub fn unnamed(self) -> Measure
        ensures { result ≡ unnamed_of self }
    {
        Measure {
            depth: self.depth,
            nodes: self.nodes,
            nesting: self.nesting,
            named: false,
            short: self.short,
        }
    }

    /// Whether all is named, and nothing is over its number.
    pub fn fits(self) -> bool
        ensures { result ≡ fits_in self }
    {
        self.named
            && self.short
            && self.depth <= MOST_DEPTH
            && self.nodes <= MOST_NODES
            && self.nesting <= MOST_NESTING
    }
}

/// The number, or one more than the most.
pub fn capped_to(number: u32, most: u32) -> u32
    requires { most < 1_000_000 }
    ensures { result ≡ min number (most + 1) }
{
    number.min(most + 1)
}
