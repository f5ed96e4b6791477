//! Lists of pairs of an object and a type.

ghost use Rattle.std.specs.Prelude.{◌≡◌, ◌<◌, ◌++◌, ◌∷◌, [], length, slice_get, Some, OnOk};

use base_data::model::Memory;
use std::alloc::Global;
use std::marker::Model;

/// A list of pairs of an object and a type. A pair before the first number of 2^32 or more takes
/// half the memory of a later pair. Contracts treat the pairs as a list.
#[derive(Drop)]
pub struct ScanPairs {
    small: Vec<(u32, u32)>,
    large: Vec<(u64, usize)>,
}

impl Model for ScanPairs {
    ghost use Rattle.std.specs.Prelude.{List, ℕ, ◌++◌};

    ghost Value = { List (ℕ × ℕ) };

    ghost view = { λ p. p.small.items ++ p.large.items };
}

impl ScanPairs {
    /// Creates an empty list.
    pub fn new(alloc: Global) -> ScanPairs
        ensures { result ≡ [] }
    {
        ScanPairs {
            small: Vec::new(alloc),
            large: Vec::new(alloc),
        }
    }

    /// Returns the number of pairs.
    #[inline(always)]
    pub fn len(&self) -> usize
        ensures { result ≡ length self.now }
    {
        self.small.len() + self.large.len()
    }

    /// Returns the pair at index `k`.
    #[inline(always)]
    pub fn get(&self, k: usize) -> (u64, usize)
        requires { k < length self.now }
        ensures { slice_get self.now k ≡ Some (result.0, result.1) }
    {
        let many = self.small.len();
        if k < many {
            let (object, ty) = self.small[k];
            return (u64::from(object), ty as usize);
        }
        self.large[k - many]
    }

    /// Appends a pair.
    #[inline(always)]
    pub fn push(&mut self, object: u64, ty: usize) -> Result<(), Memory>
        ensures { OnOk result (self.new ≡ self.old ++ (object, ty) ∷ []) }
    {
        append(&mut self.small, &mut self.large, object, ty)
    }
}

/// Appends a pair to `small` if the pair's numbers are small and `large` is empty. In all other
/// cases, appends the pair to `large`.
#[inline(always)]
fn append(
    small: &mut Vec<(u32, u32)>,
    large: &mut Vec<(u64, usize)>,
    object: u64,
    ty: usize,
) -> Result<(), Memory>
    ensures { OnOk result
        (small.new.items ++ large.new.items
        ≡ (small.old.items ++ large.old.items) ++ (object, ty) ∷ []) }
{
    if large.is_empty() && object < 1 << 32 && ty < 1 << 32 {
        small.push((object as u32, ty as u32))?;
    } else {
        large.push((object, ty))?;
    }
    Ok(())
}
