//! A list of visits that is stored compactly while the numbers are small.

ghost use Rattle.std.specs.Prelude.{◌≡◌, ◌+◌, ◌^◌, ◌<◌, ◌↔◌, [], ◌∷◌, ◌++◌, length, slice_get};
ghost use Rattle.std.specs.Prelude.{Some, vec_len, OnOk, IsTrue};
ghost use Rattle.check_heap.specs.check.Trail.{trail_of, enlarged, IsTiny};

use crate::check::rest::Rest;
use crate::check::visits::Visit;
use base_data::model::Memory;
use std::alloc::Global;
use std::marker::Model;

/// A visit whose object and parent are below 2^32, and whose type and step are below 2^16.
#[derive(Clone, Copy)]
pub struct Tiny {
    pub object: u32,
    pub parent: u32,
    pub ty: u16,
    pub step: u16,
}

/// A list of visits, which is also the model. While all visits are tiny, each visit takes 12 bytes.
/// From the first visit on that is not tiny, each visit takes 16 or 32 bytes.
#[derive(Drop)]
pub struct Trail {
    tinies: Vec<Tiny>,
    rest: Rest,
}

impl Model for Trail {
    ghost use Rattle.std.specs.Prelude.{List};
    ghost use Rattle.check_heap.specs.declared.check.visits.Visit.{Visit};

    ghost Value = { List Visit };

    ghost use Rattle.check_heap.specs.check.Trail.{trail_of};

    ghost view = { λ t. trail_of t.tinies.items t.rest };

    ghost use Rattle.std.specs.Prelude.{◌+◌, ◌^◌, ◌<◌, vec_len, length};

    ghost invariant = { λ t. vec_len t.tinies + length t.rest < 2 ^ 64 };
}

impl Trail {
    /// Creates an empty list.
    pub fn new(alloc: Global) -> Trail
        ensures { result ≡ [] }
    {
        Trail {
            tinies: Vec::new(alloc),
            rest: Rest::new(alloc),
        }
    }

    /// Returns the number of visits.
    #[inline(always)]
    pub fn len(&self) -> usize
        ensures { result ≡ length self.now }
    {
        self.tinies.len() + self.rest.len()
    }

    /// Returns true if there are more than `k` visits.
    #[inline(always)]
    pub fn has(&self, k: usize) -> bool
        ensures has { IsTrue result ↔ (k < length self.now) }
        ensures small { length self.now < 2 ^ 64 }
    {
        // Usually all visits are tiny.
        let tinies = self.tinies.len();
        k < tinies || k - tinies < self.rest.len()
    }

    /// Returns visit `k`.
    #[inline(always)]
    pub fn get(&self, k: usize) -> Visit
        requires { k < length self.now }
        ensures { slice_get self.now k ≡ Some result }
    {
        let tinies = self.tinies.len();
        if k < tinies {
            enlarge(self.tinies[k])
        } else {
            self.rest.get(k - tinies)
        }
    }

    /// Appends a visit. Fails with `Memory` if memory runs out.
    #[inline(always)]
    pub fn push(&mut self, visit: Visit) -> Result<(), Memory>
        ensures { OnOk result (self.new ≡ self.old ++ visit ∷ []) }
    {
        write(&mut self.tinies, &mut self.rest, visit)
    }
}

/// Appends a visit to the first list that has room for the visit and for the visits after it.
#[inline(always)]
fn write(tinies: &mut Vec<Tiny>, rest: &mut Rest, visit: Visit) -> Result<(), Memory>
    requires { vec_len tinies.old + length rest.old < 2 ^ 64 }
    ensures write { OnOk result
        (trail_of tinies.new.items rest.new ≡ trail_of tinies.old.items rest.old ++ visit ∷ []) }
    ensures few { vec_len tinies.new + length rest.new < 2 ^ 64 }
{
    if rest.len() == 0 && is_tiny(visit) {
        return append(tinies, shrink(visit));
    }
    write_in_rest(
        tinies,
        rest,
        visit.object,
        visit.ty,
        visit.parent,
        visit.step,
    )
}

/// Appends a visit after the tiny ones. The visit is passed in parts, because a visit passed whole
/// would be stored in memory for the call.
#[inline(never)]
fn write_in_rest(
    tinies: &Vec<Tiny>,
    rest: &mut Rest,
    object: u64,
    ty: usize,
    parent: usize,
    step: u64,
) -> Result<(), Memory>
    ensures write { OnOk result
        (rest.new
        ≡ rest.old ++ record { object = object; ty = ty; parent = parent; step = step } ∷ []) }
    ensures few { vec_len tinies.now + length rest.old < 2 ^ 64
        → vec_len tinies.now + length rest.new < 2 ^ 64 }
{
    if rest.len() >= 1 << 62 || tinies.len() >= 1 << 63 {
        return Err(Memory);
    }
    rest.push(Visit {
        object,
        ty,
        parent,
        step,
    })
}

/// Appends a tiny visit. Allocates memory only if the capacity does not suffice.
#[inline(always)]
fn append(tinies: &mut Vec<Tiny>, tiny: Tiny) -> Result<(), Memory>
    ensures { OnOk result (tinies.new.items ≡ tinies.old.items ++ tiny ∷ []) }
{
    if tinies.len() == tinies.capacity() {
        return Ok(tinies.push(tiny)?);
    }
    tinies.push_reserved(tiny);
    Ok(())
}

/// Returns true if the numbers of the visit are tiny.
#[inline(always)]
fn is_tiny(visit: Visit) -> bool
    ensures { IsTrue result ↔ IsTiny visit }
{
    visit.object < 1 << 32 && visit.ty < 1 << 16 && visit.parent < 1 << 32 && visit.step < 1 << 16
}

/// Converts a visit to its compact form.
#[inline(always)]
fn shrink(visit: Visit) -> Tiny
    requires { IsTiny visit }
    ensures { enlarged result ≡ visit }
{
    Tiny {
        object: visit.object as u32,
        parent: visit.parent as u32,
        ty: visit.ty as u16,
        step: visit.step as u16,
    }
}

/// Converts a visit from its compact form.
#[inline(always)]
fn enlarge(tiny: Tiny) -> Visit
    ensures { result ≡ enlarged tiny }
{
    Visit {
        object: u64::from(tiny.object),
        ty: tiny.ty as usize,
        parent: tiny.parent as usize,
        step: u64::from(tiny.step),
    }
}
