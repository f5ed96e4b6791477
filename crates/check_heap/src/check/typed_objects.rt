//! The typing of a value that has its type.

ghost use Rattle.std.specs.Prelude.{◌≡◌, ◌<◌, length, slice_get, Some, IfOk};
ghost use Rattle.types_spec.specs.types.Fitting.{numbered_from};
ghost use Rattle.check_heap.specs.check.Search.{pairs_of};
ghost use Rattle.check_heap.specs.scan.Scanned.{pairs_with};
ghost use Rattle.check_heap.specs.check.TypedObjects.{pairs_in};
ghost use Rattle.check_heap.specs.check.Visits.{listed};

use crate::check::settled_objects::SettledObjects;
use crate::check::visits::Visits;
use crate::scan::{Cells, SecondTypes};
use base_data::model::Memory;
use std::marker::Model;

/// Pairs of an object and a type, as a search visited the pairs, or as a scan determined or
/// recorded them.
#[derive(Drop)]
pub enum TypedObjects {
    Searched(Visits),
    /// The type of each object, indexed by the object's number.
    Scanned(Cells),
    /// The type of each object, indexed by the object's number, followed by objects at further
    /// types.
    Settled(SettledObjects),
    /// Pairs of an object and a type, in any order.
    Listed(Vec<(u64, usize)>),
}

/// Objects at types that justify one another. The order is that of a search, or that of the
/// objects' numbers followed by the objects at further types.
#[derive(Drop)]
pub struct Typing {
    pairs: TypedObjects,
}

impl Model for Typing {
    ghost use Rattle.std.specs.Prelude.{List, ℕ};

    ghost Value = { List (ℕ × ℕ) };

    ghost use Rattle.check_heap.specs.check.TypedObjects.{pairs_in};

    ghost view = { λ t. pairs_in t.pairs };
}

impl Typing {
    /// Returns the typing that the visits form.
    pub fn of(visits: Visits) -> Typing
        ensures { result ≡ pairs_of (listed visits) }
    {
        Typing {
            pairs: TypedObjects::Searched(visits),
        }
    }

    /// Returns the typing of each object at its type.
    pub fn scanned(types: Cells) -> Typing
        ensures { result ≡ numbered_from 0 types }
    {
        Typing {
            pairs: TypedObjects::Scanned(types),
        }
    }

    /// Returns the typing of each object at its type, followed by the recorded objects. Fails with
    /// `Memory` if there are too many objects.
    pub fn settled(types: Cells, seconds: SecondTypes) -> Result<Typing, Memory>
        ensures { IfOk result (λ typing. typing ≡ pairs_with types seconds) }
    {
        let settled = SettledObjects::new(types, seconds)?;
        Ok(Typing {
            pairs: TypedObjects::Settled(settled),
        })
    }

    /// Returns the typing that consists of the pairs `pairs`.
    pub fn listed(pairs: Vec<(u64, usize)>) -> Typing
        ensures { result ≡ pairs.items }
    {
        Typing {
            pairs: TypedObjects::Listed(pairs),
        }
    }

    /// Returns the number of pairs.
    pub fn len(&self) -> usize
        ensures { result ≡ length self.now }
    {
        count_in(&self.pairs)
    }

    /// Returns the object and the type of pair `k`.
    pub fn get(&self, k: usize) -> (u64, usize)
        requires { k < length self.now }
        ensures { slice_get self.now k ≡ Some (result.0, result.1) }
    {
        pair_at(&self.pairs, k)
    }
}

/// Returns the number of pairs.
fn count_in(pairs: &TypedObjects) -> usize
    ensures { result ≡ length (pairs_in pairs.now) }
{
    match pairs {
        TypedObjects::Searched(visits) => visits.len(),
        TypedObjects::Scanned(types) => types.len(),
        TypedObjects::Settled(settled) => settled.len(),
        TypedObjects::Listed(pairs) => pairs.len(),
    }
}

/// Returns the object and the type of pair `k`.
fn pair_at(pairs: &TypedObjects, k: usize) -> (u64, usize)
    requires { k < length (pairs_in pairs.now) }
    ensures { slice_get (pairs_in pairs.now) k ≡ Some (result.0, result.1) }
{
    match pairs {
        TypedObjects::Searched(visits) => {
            let visit = visits.get(k);
            (visit.object, visit.ty)
        }
        TypedObjects::Scanned(types) => (k as u64, types.get(k) as usize),
        TypedObjects::Settled(settled) => settled.get(k),
        TypedObjects::Listed(pairs) => listed_at(pairs, k),
    }
}

/// Returns pair `k` of a list.
fn listed_at(pairs: &Vec<(u64, usize)>, k: usize) -> (u64, usize)
    requires { k < length pairs.now.items }
    ensures { slice_get pairs.now.items k ≡ Some (result.0, result.1) }
{
    pairs[k]
}
