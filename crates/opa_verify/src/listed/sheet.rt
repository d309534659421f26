// What a report lists, by lines.
ghost use Rattle.std.specs.Prelude.{◌≡◌, IfOk};
ghost use Rattle.std.specs.Option.{option_copied, option_map};
ghost use Rattle.opa_case.specs.Shapes.{Shape};
ghost use Rattle.opa_date.specs.declared.TheConstants.{DAYS};
ghost use Rattle.opa_line.specs.Lines.{StandsFor};
ghost use Rattle.opa_mean.specs.Places.{owner_of};
ghost use Rattle.opa_verify.specs.Listed.Listings.{Listing};
ghost use Rattle.opa_verify.specs.Listed.Walks.{attr_shade, listed_at};
ghost use Rattle.opa_verify.specs.Listed.Ways.{place_seen};

use crate::listed::shade::Shade;
use opa_case::InstanceId;
use opa_io::{List, NoMemory, Txt};
use opa_line::Line;
use opa_model::{AttrId, RelId};
use std::alloc::Global;

/// The list of a relation at the place of its source: a place or a list that is missing, no place, an unknown list, or names.
#[derive(Debug, Drop)]
pub enum Listed {
    Missing,
    Nowhere,
    Unknown,
    Known(List<Txt>),
}

pub trait Sheet {
    ghost shape: { Self → Shape };

    ghost listing: { Self → Listing };

    /// What is listed of an attribute at its place.
    fn attribute(
        &self,
        alloc: Global,
        attr: AttrId,
        enclosing: &[InstanceId],
    ) -> Result<Line<Shade>, NoMemory>
        ensures { IfOk result (StandsFor DAYS (attr_shade (shape self.now) (listing self.now) attr enclosing.now)) };

    /// What is listed of a relation at the place of its source.
    fn members(
        &self,
        alloc: Global,
        rel: RelId,
        enclosing: &[InstanceId],
    ) -> Result<Listed, NoMemory>
        ensures { IfOk result (λ l. l ≡ listed_at (shape self.now) (listing self.now) rel enclosing.now) };

    fn target(&self, rel: RelId) -> u32
        ensures { result ≡ (shape self.now).target rel };

    fn source(&self, rel: RelId) -> u32
        ensures { result ≡ (shape self.now).source rel };

    fn owner(&self, attr: AttrId) -> u32
        ensures { result ≡ owner_of (shape self.now) attr };

    /// The place of an entity; none where it is missing.
    fn place<'a>(
        &'a self,
        enclosing: &'a [InstanceId],
        entity: u32,
    ) -> Option<Option<&'a InstanceId>>
        ensures { option_map option_copied result ≡ place_seen (listing self.now).container enclosing.now entity };
}
