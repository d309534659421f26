// A value that is changed in place.
ghost use Rattle.std.specs.Prelude.{◌≡◌, Some, None, IfOk, IfErr, IsOk, OnOk, OnErr, is_some};
ghost use Rattle.std.specs.Borrow.{sem};
ghost use Rattle.std.specs.Option.{option_copied_mut};
ghost use Rattle.std.specs.FinMap as map;
ghost use Rattle.opa_cells.specs.Lending.{lends_cell, lends_row_cell, lends_in_row, lends_in_others};

use crate::cells::Cells;
use crate::instance::InstanceId;
use crate::others::Others;
use crate::row::{Row, is_held};
use crate::rows::Rows;

impl<V> Others<V> {
    pub(crate) fn get_mut(&mut self, inst: &InstanceId) -> Option<&mut V>
        ensures* writes_back { sem 𝓛 (lends_in_others V.row self.entry inst.now result) }
        ensures value { option_copied_mut result ≡ map.get self.old inst.now }
    {
        self.cells.get_mut(inst)
    }
}

impl<V> Row<V> {
    pub(crate) fn get_mut(&mut self, inst: &InstanceId) -> Option<&mut V>
        ensures* writes_back { sem 𝓛 (lends_in_row V.row self.entry inst.now result) }
        ensures value { option_copied_mut result ≡ map.get self.old inst.now }
    {
        if is_held(&self.one, inst) {
            match self.one.as_mut() {
                Some((_, value)) => return Some(value),
                None => return None,
            }
        }
        self.others.get_mut(inst)
    }
}

impl<V> Rows<V> {
    pub(crate) fn get_mut(&mut self, number: u32, inst: &InstanceId) -> Option<&mut V>
        ensures* writes_back { sem 𝓛 (lends_row_cell V.row self.entry number inst.now result) }
        ensures value { option_copied_mut result ≡ map.get self.old (number, inst.now) }
    {
        match self.rows.get_mut(&number) {
            Some(row) => row.get_mut(inst),
            None => None,
        }
    }
}

impl<V> Cells<V> {
    /// The value at a key, to change it in place. It takes no memory.
    pub fn get_mut(&mut self, number: u32, inst: &InstanceId) -> Option<&mut V>
        ensures* writes_back { sem 𝓛 (lends_cell V.row self.entry number inst.now result) }
        ensures value { option_copied_mut result ≡ map.get self.old (number, inst.now) }
    {
        match self.rows.get_mut(number, inst) {
            Some(value) => Some(value),
            None => None,
        }
    }

    /// Puts a value in the place of the one at a key, and gives that one back. The value comes back where the key isn't there.
    /// It takes no memory.
    pub fn replace(&mut self, number: u32, inst: &InstanceId, value: V) -> Result<V, V>
        ensures ok { IfOk result (λ old. (map.get self.old (number, inst.now) ≡ Some old) ×
            (self.new ≡ map.insert self.old (number, inst.now) value)) }
        ensures err { IfErr result (λ back. (back ≡ value) × (map.get self.old (number, inst.now) ≡ None) ×
            (self.new ≡ self.old)) }
    {
        match self.get_mut(number, inst) {
            None => Err(value),
            Some(place) => Ok(std::mem::replace(place, value)),
        }
    }
}
