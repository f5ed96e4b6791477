//! The objects that a scan checked before it ended.

ghost use Rattle.std.specs.Prelude.{ℕ, ◌≡◌, [], slice_get, IfOk};
ghost use Rattle.check_heap.specs.scan.TakenObjects.{types_in, seen_of, rest_of, is_unfit_field};
ghost use Rattle.check_heap.specs.scan.TakenObjects.{is_unfit_object};

use crate::scan::number_cells::Cells;
use base_data::model::Memory;
use std::alloc::Global;

/// The first objects, each with the type at which the scan checked it.
#[derive(Drop)]
pub struct TakenObjects {
    /// The types, indexed by object number.
    pub types: Cells,
    /// The number of checked objects. The objects with larger numbers were not checked.
    pub objects: usize,
    /// The field index below which the required fields of the last checked object were tested. For
    /// each earlier object, all required fields were tested.
    pub seen: u64,
    /// The mismatch that the scan found, if any.
    pub unfit: ScanMismatch,
}

/// The mismatch that the last test of a scan found.
#[derive(Clone, Copy)]
pub enum ScanMismatch {
    Nothing,
    /// An object and a field of the object that does not match. The value of the field is no
    /// object.
    Field(u64, u64),
    /// An object that does not match the type at which the object was referenced.
    Object(u64),
}

impl TakenObjects {
    /// Creates a value with no objects.
    pub fn none(alloc: Global) -> Result<TakenObjects, Memory>
        ensures none { IfOk result (λ taken. types_in taken ≡ []) }
        ensures rest { IfOk result (λ taken. (size : ℕ) → rest_of size taken.seen ≡ 0) }
    {
        Ok(TakenObjects {
            types: Cells::new(alloc, 0, 0)?,
            objects: 0,
            seen: u64::MAX,
            unfit: ScanMismatch::Nothing,
        })
    }

    /// Returns the type at which an object was checked.
    #[inline(always)]
    pub fn type_of(&self, object: usize) -> Option<usize>
        ensures { result ≡ slice_get (types_in self.now) object }
    {
        if object < self.objects && object < self.types.len() {
            return Some(self.types.get(object) as usize);
        }
        None
    }

    /// Returns the field index below which the required fields of a checked object were tested.
    pub fn seen_of(&self, object: u64) -> u64
        ensures { result ≡ seen_of self.now object }
    {
        if object < self.objects as u64 && object + 1 < self.objects as u64 {
            u64::MAX
        } else {
            self.seen
        }
    }

    /// Returns true if the scan found the field `field` of `object` to be a mismatch.
    pub fn is_unfit_field(&self, object: u64, field: u64) -> bool
        ensures { result ≡ is_unfit_field self.now.unfit object field }
    {
        match self.unfit {
            ScanMismatch::Field(o, i) => o == object && i == field,
            _ => false,
        }
    }

    /// Returns true if the scan found the object `object` to be a mismatch.
    pub fn is_unfit_object(&self, object: u64) -> bool
        ensures { result ≡ is_unfit_object self.now.unfit object }
    {
        match self.unfit {
            ScanMismatch::Object(o) => o == object,
            _ => false,
        }
    }
}
