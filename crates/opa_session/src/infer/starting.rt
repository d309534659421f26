// A session begins: nothing is known.
ghost use Rattle.std.specs.Prelude.{◌≡◌, ◌≤◌, ◌+◌, ◌∷◌, [], IfOk};
ghost use Rattle.opa_case.specs.Cases.{no_case};
ghost use Rattle.opa_code.specs.Rulebases.{rulebase_of};
ghost use Rattle.opa_mean.specs.Reached.Settling.{AreCurrent, AreReaders};
ghost use Rattle.opa_mean.specs.Goals.Rulebases.{rulebase_of as freed_by};
ghost use Rattle.opa_mean.specs.Rulebases.{IsOf};
ghost use Rattle.opa_session.specs.Readers.Indexes.{readers_in};
ghost use Rattle.opa_session.specs.Store.Owners.{AreOwners};
ghost use Rattle.opa_session.specs.Store.Stores.{kept_of};
ghost use Rattle.opa_value.specs.declared.value.Value.TheVariants.{Unknown};
ghost use Rattle.opa_session.specs.Infer.Sessions.{rules_of, held_of, reached_of, first_slots};

use crate::infer::first::first_lines;
use crate::infer::session::Session;
use crate::readers::Index;
use crate::store::{Owners, Store, owners_of};
use opa_case::{Case, empty_fits};
use opa_code::{Code, compile};
use opa_io::{NoMemory, Steps};
use opa_line::Line;
use opa_mean::Frees;
use opa_tree::Rulebase;
use opa_value::Value;
use std::alloc::Global;
use std::sync::ledger::Ledger;

impl<L: Ledger> Session<L> {
    /// The session in which nothing is known. Each line is derived once.
    pub fn start(
        alloc: Global,
        base: Rulebase,
        steps: &mut Steps<L>,
    ) -> Result<Session<L>, NoMemory>
        ensures base { IfOk result (λ s. rules_of s ≡ base) }
        ensures case { IfOk result (λ s. held_of s ≡ no_case) }
        ensures reached { IfOk result (λ s. reached_of s ≡ 0) }
        ensures bound { steps.new ≤ steps.old + first_slots base }
    {
        let made = made_of(alloc, &base)?;
        let first = first_state(alloc, &base, &made.code, steps)?;
        Ok(begun(base, made, first))
    }
}

/// What is made of a rulebase once.
#[derive(Drop)]
struct Made {
    owners: Owners,
    code: Code,
    frees: Frees,
    unknown: Line<Value>,
}

/// The empty case with the lines over it and who reads what.
#[derive(Drop)]
struct First<L: Ledger> {
    case: Case,
    readers: Index,
    store: Store<L>,
}

fn made_of(alloc: Global, base: &Rulebase) -> Result<Made, NoMemory>
    ensures owned { IfOk result (λ m. AreOwners base.now m.owners) }
    ensures coded { IfOk result (λ m. rulebase_of m.code ≡ base.now) }
    ensures freed { IfOk result (λ m. freed_by m.frees ≡ base.now) }
    ensures nothing { IfOk result (λ m. m.unknown ≡ (0, Unknown) ∷ []) }
{
    let owners = owners_of(alloc, base)?;
    let code = compile(alloc, base)?;
    let frees = Frees::of(alloc, base)?;
    let unknown = Line::constant(alloc, Value::Unknown)?;
    Ok(Made {
        owners,
        code,
        frees,
        unknown,
    })
}

fn first_state<L: Ledger>(
    alloc: Global,
    base: &Rulebase,
    code: &Code,
    steps: &mut Steps<L>,
) -> Result<First<L>, NoMemory>
    requires { rulebase_of code.now ≡ base.now }
    ensures case { IfOk result (λ f. f.case ≡ no_case) }
    ensures fits { IfOk result (λ f. IsOf base.now f.case) }
    ensures current { IfOk result (λ f. AreCurrent base.now f.case (kept_of f.store)) }
    ensures empty { IfOk result (λ f. f.store.slots ≡ []) }
    ensures exact { IfOk result (λ f. AreReaders base.now f.case (readers_in f.readers)) }
    ensures bound { steps.new ≤ steps.old + first_slots base.now }
{
    let case = empty_case(alloc, base);
    let readers = Index::of(alloc, base, &case)?;
    let store = first_lines(alloc, base, code, &case, steps)?;
    Ok(First {
        case,
        readers,
        store,
    })
}

fn begun<L: Ledger>(base: Rulebase, made: Made, first: First<L>) -> Session<L>
    requires owned { AreOwners base made.owners }
    requires coded { rulebase_of made.code ≡ base }
    requires freed { freed_by made.frees ≡ base }
    requires nothing { made.unknown ≡ (0, Unknown) ∷ [] }
    requires fits { IsOf base first.case }
    requires current { AreCurrent base first.case (kept_of first.store) }
    requires empty { first.store.slots ≡ [] }
    requires exact { AreReaders base first.case (readers_in first.readers) }
    ensures base { rules_of result ≡ base }
    ensures case { held_of result ≡ first.case }
    ensures reached { reached_of result ≡ 0 }
{
    let Made {
        owners,
        code,
        frees,
        unknown,
    } = made;
    let First {
        case,
        readers,
        store,
    } = first;
    Session {
        base,
        owners,
        code,
        frees,
        unknown,
        case,
        store,
        readers,
        dirty: 0,
    }
}

/// The case of which nothing is known, which fits.
fn empty_case(alloc: Global, base: &Rulebase) -> Case
    ensures none { result ≡ no_case }
    ensures fits { IsOf base.now result }
{
    // The count shows the model's form.
    let _count = base.model.attribute_count();
    empty_fits();
    Case::new(alloc)
}
