//! Objects that were referenced at a second or later class.

ghost use Rattle.std.specs.Prelude.{◌≡◌, ◌<◌, length, slice_get, Some, OnOk};
ghost use Rattle.types_table.specs.type_table.Made.{table_of};
ghost use Rattle.check_heap.specs.scan.Classed.{IsUntouched};
ghost use Rattle.check_heap.specs.scan.Seconds.{noted_in, AreSeconds, IsNoting};

use crate::scan::classed::Classed;
use crate::scan::scan_pairs::ScanPairs;
use base_data::model::Memory;
use std::alloc::Global;
use types_table::type_table::TypeTable;

/// Pairs of an object and a type. No object occurs twice at the same class.
#[derive(Drop)]
pub struct SecondTypes {
    /// The pairs in the order in which they were added.
    pub listed: ScanPairs,
    /// The objects of the pairs, each with the class of its type.
    pub known: Classed,
}

impl SecondTypes {
    /// Creates an empty collection.
    pub fn none(alloc: Global) -> SecondTypes
        ensures none { length (noted_in result) ≡ 0 }
        ensures known { IsUntouched result.known }
    {
        SecondTypes {
            listed: ScanPairs::new(alloc),
            known: Classed::none(alloc),
        }
    }

    /// Returns the number of pairs.
    pub fn len(&self) -> usize
        ensures { result ≡ length (noted_in self.now) }
    {
        self.listed.len()
    }

    /// Returns the object and the type at index `k`.
    pub fn get(&self, k: usize) -> (u64, usize)
        requires { k < length (noted_in self.now) }
        ensures { slice_get (noted_in self.now) k ≡ Some (result.0, result.1) }
    {
        self.listed.get(k)
    }

    /// Adds an object at a type, unless the object is present at an equal type. `objects` is the
    /// number of all objects.
    #[inline(never)]
    pub fn note(
        &mut self,
        table: &TypeTable,
        objects: usize,
        object: u64,
        ty: usize,
    ) -> Result<(), Memory>
        requires ty { ty < length table.now.classes }
        requires seconds { AreSeconds (table_of table.now) self.old }
        ensures seconds { OnOk result (AreSeconds (table_of table.now) self.new) }
        ensures notes { OnOk result
            (IsNoting (table_of table.now) (noted_in self.old) (noted_in self.new) object ty) }
    {
        let class = table.class(ty);
        if !self.known.insert(objects, object, class)? {
            return Ok(());
        }
        self.listed.push(object, ty)?;
        Ok(())
    }
}
