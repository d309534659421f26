// A window as runs of days with one value.
ghost use Rattle.std.specs.Prelude.{◌≡◌, ◌<◌, ◌≤◌, ◌-◌, ◌++◌, ◌∷◌, [], length, IfOk, OnOk};
ghost use Rattle.opa_window.specs.Runs.{runs_of as meant, shown};

use opa_io::NoMemory;
use std::alloc::Global;

/// The runs of days with one value, from the first day on and below the last.
pub(crate) fn runs_of<'a, T>(
    alloc: Global,
    pairs: &'a [(u32, T)],
    from: u32,
    to: u32,
) -> Result<Vec<(u32, &'a T)>, NoMemory>
    requires some { 0 < length pairs.now }
    requires order { from < to }
    ensures { IfOk result (λ rs. shown rs.items ≡ meant pairs.now from to) }
{
    let mut out = Vec::new(alloc);
    let mut value = &pairs[0].1;
    let mut rest = &pairs[1..];
    let mut day = from;
    while let [p, after @ ..] = rest {
        if to <= p.0 {
            break;
        }
        if day < p.0 {
            put(&mut out, p.0 - day, value)?;
            day = p.0;
        }
        value = &p.1;
        rest = after;
    }
    put(&mut out, to - day, value)?;
    Ok(out)
}

fn put<T: Drop>(runs: &mut Vec<(u32, T)>, days: u32, value: T) -> Result<(), NoMemory>
    ensures { OnOk result (runs.new.items ≡ runs.old.items ++ (days, value) ∷ []) }
{
    runs.push((days, value))?;
    Ok(())
}
