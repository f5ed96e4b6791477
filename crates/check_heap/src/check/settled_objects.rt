//! The typing of a value in which some objects have several types.

ghost use Rattle.std.specs.Prelude.{◌≡◌, ◌+◌, ◌^◌, ◌<◌, length, slice_get, Some, IfOk};
ghost use Rattle.check_heap.specs.scan.Scanned.{pairs_with};
ghost use Rattle.check_heap.specs.scan.Seconds.{noted_in};

use crate::scan::{Cells, SecondTypes};
use base_data::model::Memory;
use std::marker::Model;

/// Each object at its type, followed by the objects that have further types. The model is the list
/// of these pairs.
#[derive(Drop)]
pub struct SettledObjects {
    types: Cells,
    seconds: SecondTypes,
}

impl Model for SettledObjects {
    ghost use Rattle.std.specs.Prelude.{List, ℕ};

    ghost Value = { List (ℕ × ℕ) };

    ghost use Rattle.check_heap.specs.scan.Scanned.{pairs_with};

    ghost view = { λ s. pairs_with s.types s.seconds };

    ghost use Rattle.std.specs.Prelude.{◌+◌, ◌^◌, ◌<◌, length};
    ghost use Rattle.check_heap.specs.scan.Seconds.{noted_in};

    ghost invariant = { λ s. length s.types + length (noted_in s.seconds) < 2 ^ 64 };
}

impl SettledObjects {
    /// Creates the typing of the objects at the types `types` and `seconds`. Fails with `Memory` if
    /// there are 2^62 pairs or more in one of the lists.
    pub fn new(types: Cells, seconds: SecondTypes) -> Result<SettledObjects, Memory>
        ensures { IfOk result (λ settled. settled ≡ pairs_with types seconds) }
    {
        if types.len() >= 1 << 62 || seconds.len() >= 1 << 62 {
            return Err(Memory);
        }
        Ok(SettledObjects { types, seconds })
    }

    /// Returns the number of pairs.
    pub fn len(&self) -> usize
        ensures { result ≡ length self.now }
    {
        self.types.len() + self.seconds.len()
    }

    /// Returns the object and the type of pair `k`.
    pub fn get(&self, k: usize) -> (u64, usize)
        requires { k < length self.now }
        ensures { slice_get self.now k ≡ Some (result.0, result.1) }
    {
        let objects = self.types.len();
        if k < objects {
            return (k as u64, self.types.get(k) as usize);
        }
        self.seconds.get(k - objects)
    }
}
