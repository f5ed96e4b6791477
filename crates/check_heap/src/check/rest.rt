//! The visits of a trail from the first one whose numbers are not tiny on.

ghost use Rattle.std.specs.Prelude.{◌≡◌, ◌+◌, ◌^◌, ◌<◌, ◌≤◌, ◌↔◌, [], ◌∷◌, ◌++◌, length, slice_get};
ghost use Rattle.std.specs.Prelude.{Some, vec_len, OnOk, IsTrue};
ghost use Rattle.check_heap.specs.check.Rest.{visits_in, widened, IsShort};

use crate::check::visits::Visit;
use base_data::model::Memory;
use std::alloc::Global;
use std::marker::Model;

/// A visit whose numbers are below 2^32.
#[derive(Clone, Copy)]
pub struct Short {
    pub object: u32,
    pub ty: u32,
    pub parent: u32,
    pub step: u32,
}

/// A list of visits, which is also the model. While all numbers are below 2^32, each visit takes 16
/// bytes. From the first larger number on, each visit takes 32 bytes.
#[derive(Drop)]
pub struct Rest {
    shorts: Vec<Short>,
    longs: Vec<Visit>,
}

impl Model for Rest {
    ghost use Rattle.std.specs.Prelude.{List};
    ghost use Rattle.check_heap.specs.declared.check.visits.Visit.{Visit};

    ghost Value = { List Visit };

    ghost use Rattle.check_heap.specs.check.Rest.{visits_in};

    ghost view = { λ r. visits_in r.shorts.items r.longs.items };

    ghost use Rattle.std.specs.Prelude.{◌+◌, ◌^◌, ◌<◌, vec_len};

    ghost invariant = { λ r. vec_len r.shorts + vec_len r.longs < 2 ^ 64 };
}

impl Rest {
    /// Creates an empty list.
    pub fn new(alloc: Global) -> Rest
        ensures { result ≡ [] }
    {
        Rest {
            shorts: Vec::new(alloc),
            longs: Vec::new(alloc),
        }
    }

    /// Returns the number of visits.
    #[inline(always)]
    pub fn len(&self) -> usize
        ensures { result ≡ length self.now }
    {
        self.shorts.len() + self.longs.len()
    }

    /// Returns visit `k`.
    #[inline(always)]
    pub fn get(&self, k: usize) -> Visit
        requires { k < length self.now }
        ensures { slice_get self.now k ≡ Some result }
    {
        let shorts = self.shorts.len();
        if k < shorts {
            wide(self.shorts[k])
        } else {
            self.longs[k - shorts]
        }
    }

    /// Appends a visit. Fails with `Memory` if memory runs out.
    #[inline(always)]
    pub fn push(&mut self, visit: Visit) -> Result<(), Memory>
        ensures write { OnOk result (self.new ≡ self.old ++ visit ∷ []) }
        ensures few { length self.new ≤ length self.old + 1 }
    {
        write(&mut self.shorts, &mut self.longs, visit)
    }
}

/// Appends a visit to the first list that has room for the visit and for the visits after it.
#[inline(always)]
fn write(shorts: &mut Vec<Short>, longs: &mut Vec<Visit>, visit: Visit) -> Result<(), Memory>
    requires { vec_len shorts.old + vec_len longs.old < 2 ^ 64 }
    ensures write { OnOk result
        (visits_in shorts.new.items longs.new.items
        ≡ visits_in shorts.old.items longs.old.items ++ visit ∷ []) }
    ensures few { vec_len shorts.new + vec_len longs.new < 2 ^ 64 }
    ensures more { vec_len shorts.new + vec_len longs.new
        ≤ vec_len shorts.old + vec_len longs.old + 1 }
{
    if longs.is_empty() && is_short(visit) {
        shorts.push(narrow(visit))?;
    } else if shorts.len() < 1 << 63 {
        longs.push(visit)?;
    } else {
        return Err(Memory);
    }
    Ok(())
}

/// Returns true if all numbers of the visit are below 2^32.
#[inline(always)]
fn is_short(visit: Visit) -> bool
    ensures { IsTrue result ↔ IsShort visit }
{
    visit.object < 1 << 32 && visit.ty < 1 << 32 && visit.parent < 1 << 32 && visit.step < 1 << 32
}

/// Converts a visit to its compact form.
#[inline(always)]
fn narrow(visit: Visit) -> Short
    requires { IsShort visit }
    ensures { widened result ≡ visit }
{
    Short {
        object: visit.object as u32,
        ty: visit.ty as u32,
        parent: visit.parent as u32,
        step: visit.step as u32,
    }
}

/// Converts a visit from its compact form.
#[inline(always)]
fn wide(short: Short) -> Visit
    ensures { result ≡ widened short }
{
    Visit {
        object: u64::from(short.object),
        ty: short.ty as usize,
        parent: short.parent as usize,
        step: u64::from(short.step),
    }
}
