//! Pairs of objects that must agree.

ghost use Rattle.std.specs.Prelude.{◌≡◌, ◌<◌, ◌≤◌, ◌++◌, ◌∷◌, [], length, map, slice_get, IfOk};
ghost use Rattle.std.specs.Prelude.{OnOk, Contains};
ghost use Rattle.marshal_heap.specs.isomorphism.Paired.{IsNew, left_of, right_of};
ghost use Rattle.base_data.specs.model.Graph.{IsValue};
ghost use Rattle.marshal_spec.specs.format.Isomorphism.{Agree};
ghost use Rattle.marshal_heap.specs.isomorphism.Meeting.{Meets, AreOneToOne, AreInRange};

use base_data::model::Memory;
use base_data::model::value::Val;
use std::alloc::Global;
use std::marker::Model;

/// A one-to-one pairing of the objects of two graphs: no number occurs twice on one side. The model
/// of a pairing is the list of pairs in their order, with the number of objects of each graph.
#[derive(Drop)]
pub struct Pairing {
    pairs: Vec<(u64, u64)>,
    // The entry of an object is the position of the object's pair, counted from 1. If the object
    // has no pair, the entry is 0.
    left: Vec<u64>,
    right: Vec<u64>,
}

impl Model for Pairing {
    ghost use Rattle.std.specs.Prelude.{length, map};
    ghost use Rattle.marshal_heap.specs.isomorphism.Paired.{Paired, IsIndex, left_of, right_of};

    ghost Value = { Paired };

    ghost view = { λ p. record {
      pairs = p.pairs.items;
      lefts = length p.left.items;
      rights = length p.right.items;
    } };

    ghost invariant = { λ p. IsIndex p.left.items (map left_of p.pairs.items)
        × IsIndex p.right.items (map right_of p.pairs.items) };
}

impl Pairing {
    /// Creates an empty pairing for graphs of `lefts` and `rights` objects. Fails with `Memory` if
    /// memory runs out.
    pub fn new(alloc: Global, lefts: u64, rights: u64) -> Result<Pairing, Memory>
        ensures empty { IfOk result (λ p. p.pairs ≡ []) }
        ensures lefts { IfOk result (λ p. p.lefts ≡ lefts) }
        ensures rights { IfOk result (λ p. p.rights ≡ rights) }
    {
        Ok(Pairing {
            pairs: Vec::new(alloc),
            left: vec![in alloc; 0u64; lefts as usize]?,
            right: vec![in alloc; 0u64; rights as usize]?,
        })
    }

    /// Returns the number of pairs. The contract of `len` also states that the pairing is
    /// one-to-one and that the numbers of each pair are in range.
    pub fn len(&self) -> usize
        ensures len { result ≡ length self.now.pairs }
        ensures few { result ≤ self.now.lefts }
        ensures one_to_one { AreOneToOne self.now.pairs }
        ensures in_range { AreInRange self.now.pairs self.now.lefts self.now.rights }
    {
        self.pairs.len()
    }

    /// Returns pair `i`.
    pub fn pair(&self, i: usize) -> (u64, u64)
        requires { i < length self.now.pairs }
        ensures pair { slice_get self.now.pairs i ≡ Some result }
        ensures left { result.0 < self.now.lefts }
        ensures right { result.1 < self.now.rights }
    {
        self.pairs[i]
    }

    /// Pairs two objects if neither object has a pair yet. Returns true if the two objects are
    /// paired with each other, and false if one of them has another pair. Fails with `Memory` if
    /// memory runs out.
    pub fn meet_objects(&mut self, left: u64, right: u64) -> Result<bool, Memory>
        requires left { left < self.old.lefts }
        requires right { right < self.old.rights }
        ensures meets { Meets self.old.pairs self.new.pairs
            (λ pairs. Contains pairs (left, right)) result }
        ensures lefts { self.new.lefts ≡ self.old.lefts }
        ensures rights { self.new.rights ≡ self.old.rights }
    {
        let position = self.left[left as usize];
        if position != self.right[right as usize] {
            return Ok(false);
        }
        if position == 0 {
            self.add(left, right)?;
        }
        Ok(true)
    }

    // Adds a pair of two objects that have no pair yet. Fails with `Memory` if memory runs out.
    fn add(&mut self, left: u64, right: u64) -> Result<(), Memory>
        requires left { left < self.old.lefts }
        requires right { right < self.old.rights }
        requires left_new { IsNew (map left_of self.old.pairs) left }
        requires right_new { IsNew (map right_of self.old.pairs) right }
        ensures ok { OnOk result (self.new.pairs ≡ self.old.pairs ++ (left, right) ∷ []) }
        ensures lefts { self.new.lefts ≡ self.old.lefts }
        ensures rights { self.new.rights ≡ self.old.rights }
    {
        self.pairs.push((left, right))?;
        let position = self.pairs.len() as u64;
        self.left[left as usize] = position;
        self.right[right as usize] = position;
        Ok(())
    }

    /// Compares two values of fields and returns true if the values agree. If both values are
    /// references, pairs their objects as `meet_objects` does. Two integers or two atoms agree if
    /// they are equal.
    pub fn meet_values(&mut self, left: Val, right: Val) -> Result<bool, Memory>
        requires left { IsValue self.old.lefts left }
        requires right { IsValue self.old.rights right }
        ensures meets { Meets self.old.pairs self.new.pairs (λ pairs. Agree pairs left right)
            result }
        ensures lefts { self.new.lefts ≡ self.old.lefts }
        ensures rights { self.new.rights ≡ self.old.rights }
    {
        match (left, right) {
            (Val::Int(left), Val::Int(right)) => Ok(left == right),
            (Val::Atom(left), Val::Atom(right)) => Ok(left == right),
            (Val::Ref(left), Val::Ref(right)) => self.meet_objects(left, right),
            _ => Ok(false),
        }
    }
}
