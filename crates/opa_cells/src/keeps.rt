// Which cells stay.
ghost use Rattle.std.specs.Prelude.{◌≡◌, ℕ, Bool};
ghost use Rattle.opa_cells.specs.declared.instance.InstanceId.{InstanceId as InstanceView};

use crate::instance::InstanceId;

/// Which cells stay.
pub trait Keeps<V> {
    ghost keeps: { Self → ℕ → InstanceView → V → Bool };

    fn keeps(&self, number: u32, inst: &InstanceId, value: &V) -> bool
        ensures { result ≡ keeps self.now number inst.now value.now };
}
