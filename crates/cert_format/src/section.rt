//! The entries of a certificate.

ghost use Rattle.std.specs.Prelude.{◌≡◌, ◌<◌, ◌↔◌, ◌++◌, ◌∷◌, [], length, slice_get, Some, IsTrue};
ghost use Rattle.std.specs.Prelude.{OnOk, OnErr};
ghost use Rattle.cert_format.specs.Increasing.{IsSmaller, AreIncreasing, IsAbove};

use base_data::model::Memory;
use base_data::model::path::Path;
use std::alloc::Global;
use std::marker::Model;

/// Pairs of an object number and a type number, strictly increasing by object, then by type. A pair
/// in `small` takes half the memory of a pair in `large`. Pushed pairs go to `small` until a pair
/// has a number of 2^32 or more.
#[derive(Drop)]
pub struct CertificatePairs {
    small: Vec<(u32, u32)>,
    large: Vec<(u64, u64)>,
}

impl Model for CertificatePairs {
    ghost use Rattle.std.specs.Prelude.{List, ℕ, ◌++◌};

    ghost Value = { List (ℕ × ℕ) };

    ghost view = { λ p. p.small.items ++ p.large.items };

    ghost use Rattle.cert_format.specs.Increasing.{AreIncreasing};

    ghost invariant = { λ p. AreIncreasing (p.small.items ++ p.large.items) };
}

impl CertificatePairs {
    /// Creates an empty list.
    pub fn new(alloc: Global) -> CertificatePairs
        ensures { result ≡ [] }
    {
        CertificatePairs {
            small: Vec::new(alloc),
            large: Vec::new(alloc),
        }
    }

    /// Creates a list from pairs that are strictly increasing.
    pub fn of(alloc: Global, pairs: Vec<(u64, u64)>) -> CertificatePairs
        requires { AreIncreasing pairs.items }
        ensures { result ≡ pairs.items }
    {
        CertificatePairs {
            small: Vec::new(alloc),
            large: pairs,
        }
    }

    /// Returns the number of pairs. The contract also states that the pairs are strictly
    /// increasing.
    #[inline(always)]
    pub fn len(&self) -> usize
        ensures count { result ≡ length self.now }
        ensures increasing { AreIncreasing self.now }
    {
        self.small.len() + self.large.len()
    }

    /// Returns the pair at index `i`.
    #[inline(always)]
    pub fn at(&self, i: usize) -> (u64, u64)
        requires { i < length self.now }
        ensures { slice_get self.now i ≡ Some (result.0, result.1) }
    {
        let many = self.small.len();
        if i < many {
            let (object, ty) = self.small[i];
            return (u64::from(object), u64::from(ty));
        }
        self.large[i - many]
    }

    /// Returns true if the pair is larger than all pairs of the list. The list increases, so
    /// comparing with the last pair suffices.
    #[inline(always)]
    pub fn is_above(&self, object: u64, ty: u64) -> bool
        ensures { IsTrue result ↔ IsAbove self.now (object, ty) }
    {
        let many = self.len();
        if many == 0 {
            return true;
        }
        is_smaller(self.at(many - 1), object, ty)
    }

    /// Appends a pair that is larger than all pairs of the list. If the result is `Memory`, the
    /// list is unchanged.
    #[inline(always)]
    pub fn push(&mut self, object: u64, ty: u64) -> Result<(), Memory>
        requires { IsAbove self.old (object, ty) }
        ensures ok { OnOk result (self.new ≡ self.old ++ (object, ty) ∷ []) }
        ensures err { OnErr result (self.new ≡ self.old) }
    {
        append(&mut self.small, &mut self.large, object, ty)?;
        Ok(())
    }
}

/// Appends a pair to `small` if its numbers are below 2^32 and `large` is empty. Otherwise appends
/// the pair to `large`.
#[inline(always)]
fn append(
    small: &mut Vec<(u32, u32)>,
    large: &mut Vec<(u64, u64)>,
    object: u64,
    ty: u64,
) -> Result<(), Memory>
    ensures ok { OnOk result (small.new.items ++ large.new.items
        ≡ (small.old.items ++ large.old.items) ++ (object, ty) ∷ []) }
    ensures err { OnErr result
        ((small.new.items ≡ small.old.items) × (large.new.items ≡ large.old.items)) }
{
    if large.is_empty() && object < 1 << 32 && ty < 1 << 32 {
        let Ok(()) = small.push((object as u32, ty as u32)) else {
            return Err(Memory);
        };
    } else {
        let Ok(()) = large.push((object, ty)) else {
            return Err(Memory);
        };
    }
    Ok(())
}

/// Returns true if `one` is smaller than the pair of `object` and `ty`.
#[inline(always)]
fn is_smaller(one: (u64, u64), object: u64, ty: u64) -> bool
    ensures { IsTrue result ↔ IsSmaller one (object, ty) }
{
    if one.0 == object {
        one.1 < ty
    } else {
        one.0 < object
    }
}

/// The entry for one value: pairs that justify one another, or the paths of a fault. `Mismatch` is
/// a type mismatch and `Conflict` is an aliasing conflict.
#[derive(Drop)]
pub enum Section {
    Pairs(CertificatePairs),
    Mismatch(Path),
    Conflict(Path, Path),
}
