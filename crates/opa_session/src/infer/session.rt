// A rulebase with its code, a case that fits it, the line of each conclusion, and what reads what.
ghost use Rattle.std.specs.Prelude.{◌≡◌, ◌∷◌, []};
ghost use Rattle.std.proofs.Props.{props};
ghost use Rattle.opa_case.specs.Cases.{coded_lists, coded_population};
ghost use Rattle.opa_case.specs.Fits.{Fits};
ghost use Rattle.opa_case.specs.Shapes.{shape_of};
ghost use Rattle.opa_cells.specs.Instances.{coded_instance};
ghost use Rattle.opa_code.specs.Rulebases.{rulebase_of};
ghost use Rattle.opa_mean.specs.Reached.Settling.{AreCurrent, AreReaders};
ghost use Rattle.opa_mean.specs.contracts.reached.slot.Slot as slot;
ghost use Rattle.opa_mean.specs.Goals.Rulebases.{rulebase_of as freed_by};
ghost use Rattle.opa_model.specs.contracts.ids.AttrId as attribute;
ghost use Rattle.opa_session.specs.Readers.Indexes.{readers_in};
ghost use Rattle.opa_session.specs.Store.Owners.{AreOwners};
ghost use Rattle.opa_session.specs.Store.Stores.{kept_of};
ghost use Rattle.opa_value.specs.contracts.value.Value as each;
ghost use Rattle.opa_value.specs.declared.value.Value.TheVariants.{Unknown};

use crate::readers::Index;
use crate::store::{Owners, Store};
use opa_case::Case;
use opa_code::Code;
use opa_line::Line;
use opa_mean::Frees;
use opa_tree::Rulebase;
use opa_value::Value;
use std::sync::ledger::Ledger;

/// A rulebase with what is computed of it once, a case that fits it, the line of each conclusion (the fresh determination at
/// every day), and which slots read each line and each list. Nothing is staged. The number is how many slots the last accepted
/// change reached. A kept line changes only by a derivation that is counted on the ledger.
#[derive(Drop)]
pub struct Session<L: Ledger> {
    pub(crate) base: Rulebase,
    pub(crate) owners: Owners,
    pub(crate) code: Code,
    pub(crate) frees: Frees,
    pub(crate) unknown: Line<Value>,
    pub(crate) case: Case,
    pub(crate) store: Store<L>,
    pub(crate) readers: Index,
    pub(crate) dirty: u64,
    ghost owned: { AreOwners base owners } by { Prim.hlevel (props, attribute.the_row.coded) },
    ghost coded: { rulebase_of code ≡ base },
    ghost freed: { freed_by frees ≡ base },
    ghost nothing: { unknown ≡ (0, Unknown) ∷ [] } by { Prim.hlevel (props, each.the_row.coded) },
    ghost fits: { Fits (shape_of base.model) base.ruled case } by { Prim.hlevel (props, coded_lists, coded_population, coded_instance) },
    ghost current: { AreCurrent base case (kept_of store) } by { Prim.hlevel (props, each.the_row.coded) },
    ghost empty: { store.slots ≡ [] } by { Prim.hlevel (props, slot.the_row.coded) },
    ghost exact: { ∥ AreReaders base case (readers_in readers) ∥₁ },
}
