//! Builds a graph from tokens that arrive one at a time, in preorder: the fields of a block follow
//! the block (`intern.c`).

ghost use Rattle.std.specs.Prelude.{◌≡◌, ◌≢◌, ◌+◌, ◌≤◌, ◌<◌, ◌^◌, ◌∷◌, length, OnOk, vec_len};
ghost use Rattle.std.specs.Prelude.{vec_capacity, IsSome, Some, MatchBool, MatchResult};
ghost use Rattle.base_data.specs.model.Graph.{IsValue};
ghost use Rattle.marshal_heap.specs.heap.Heap.{word_of};
ghost use Rattle.marshal_read.specs.Build.{building, stack, fill as fill_next_of, AreOpen};
ghost use Rattle.marshal_read.specs.Build.{WellOpen};

use crate::returned_value::{Borrowed, Value};
use base_data::model::Memory;
use base_data::model::code::Custom;
use base_data::model::value::Val;
use marshal_heap::heap::Heap;
use std::alloc::Global;
use std::marker::Model;

/// A block whose fields are not all read yet. The record has the object's number, the index of the
/// next field, the number of fields, and the word that refers to the block.
#[derive(Clone, Copy)]
pub struct PendingBlock {
    pub object: u64,
    pub next: u64,
    pub size: u64,
    pub at: u64,
}

/// The state of a graph under construction. The state has the objects so far, the open blocks, the
/// root once the root is read, and the maximum number of 64-bit words. `inner` is the innermost
/// open block. If `inner` is full, then the last block of `outer` is the innermost one, or no block
/// is open. `outer` contains the enclosing open blocks, outermost first.
#[derive(Drop)]
pub struct Builder {
    heap: Heap,
    inner: PendingBlock,
    outer: Vec<PendingBlock>,
    root: Option<Val>,
    room: u64,
}

impl Model for Builder {
    ghost use Rattle.marshal_read.specs.Build.{Bounded, building, in_room, stack, IsBuilt};

    ghost Value = { Bounded };

    ghost view = { λ b. in_room (building b.heap (stack b.inner b.outer.items) b.root) b.room };

    ghost invariant = { λ b.
        IsBuilt (in_room (building b.heap (stack b.inner b.outer.items) b.root) b.room) };
}

/// If the innermost block is full, replaces it by the next enclosing block.
#[inline(always)]
fn settle(_heap: &Heap, inner: &mut PendingBlock, outer: &mut Vec<PendingBlock>)
    requires { AreOpen _heap.now (stack inner.old outer.old.items) }
    ensures same { stack inner.new outer.new.items ≡ stack inner.old outer.old.items }
    ensures settled { inner.new.next ≡ inner.new.size → vec_len outer.new ≡ 0 }
    ensures room { vec_len outer.old < vec_capacity outer.old
        → vec_len outer.new < vec_capacity outer.new }
{
    if inner.next == inner.size {
        if let Some(block) = outer.pop() {
            *inner = block;
        }
    }
}

/// Stores a value, given as a heap word: as the root, or as the next field of the innermost open
/// block.
#[inline(always)]
fn fill_next(
    heap: &mut Heap,
    inner: &mut PendingBlock,
    _outer: &Vec<PendingBlock>,
    root: &mut Option<Val>,
    v: Val,
    word: u64,
)
    requires well { WellOpen (building heap.old (stack inner.old _outer.now.items) root.old) }
    requires settled { inner.old.next ≡ inner.old.size → vec_len _outer.now ≡ 0 }
    requires valid { IsValue (length heap.old) v }
    requires word { word ≡ word_of heap.old v }
    ensures fills { building heap.new (stack inner.new _outer.now.items) root.new
        ≡ fill_next_of v heap.old (stack inner.old _outer.now.items) root.old }
    ensures moved { inner.new.next ≢ inner.new.size → inner.old.next + 1 < inner.old.size }
{
    if inner.next == inner.size {
        *root = Some(v);
        return;
    }
    heap.set_word_at(inner.at, inner.next, word);
    inner.next += 1;
}

/// Makes a block the innermost open block. The capacity of `outer` suffices for the previous
/// innermost block.
#[inline(always)]
fn open_in_room(inner: &mut PendingBlock, outer: &mut Vec<PendingBlock>, block: PendingBlock)
    requires room { inner.old.next ≢ inner.old.size → vec_len outer.old < vec_capacity outer.old }
    requires some { block.next ≢ block.size }
    ensures { stack inner.new outer.new.items ≡ block ∷ stack inner.old outer.old.items }
{
    if inner.next != inner.size {
        outer.push_reserved(*inner);
    }
    *inner = block;
}

/// Makes a block the innermost open block and reserves memory for one more block in `outer`. If
/// memory runs out, nothing changes.
fn open_block(
    inner: &mut PendingBlock,
    outer: &mut Vec<PendingBlock>,
    block: PendingBlock,
) -> Result<(), Memory>
    requires { block.next ≢ block.size }
    ensures { MatchResult result
        (λ _. stack inner.new outer.new.items ≡ block ∷ stack inner.old outer.old.items)
        (λ _. stack inner.new outer.new.items ≡ stack inner.old outer.old.items) }
{
    outer.reserve(1)?;
    open_in_room(inner, outer, block);
    Ok(())
}

impl Builder {
    ghost use Rattle.marshal_spec.specs.format.Token.{integer as integer_token, atom as atom_token};
    ghost use Rattle.marshal_spec.specs.format.Token.{shared as shared_token, block as block_token};
    ghost use Rattle.marshal_spec.specs.format.Token.{leaf};
    ghost use Rattle.base_data.specs.declared.model.value.Obj.TheVariants as objects;
    ghost use Rattle.marshal_heap.specs.heap.Heap.{custom_object, heap_words};
    ghost use Rattle.base_data.specs.declared.model.code.Measure.TheVariants as measures;
    ghost use Rattle.marshal_spec.specs.format.Raw.{block_measure};
    ghost use Rattle.marshal_spec.specs.format.Token.{leaf_measure, block_or_atom};
    ghost use Rattle.marshal_read.specs.Build.{empty, in_room, fill_in, absorb_in, Fits};
    ghost use Rattle.base_data.specs.model.Graph.{IsInteger};

    /// Creates an empty builder that reuses the memory of a discarded heap. The objects may have at
    /// most `room` 64-bit words.
    pub fn over(alloc: Global, room: u64, heap: Heap) -> Builder
        ensures { result ≡ empty room }
    {
        let mut heap = heap;
        heap.clear();
        Builder {
            heap,
            inner: PendingBlock {
                object: 0,
                next: 0,
                size: 0,
                at: 0,
            },
            outer: Vec::new(alloc),
            root: None,
            room,
        }
    }

    /// Sets the maximum number of 64-bit words of the objects.
    pub fn allow(&mut self, room: u64)
        requires { heap_words self.old.built.objects ≤ room }
        ensures { self.new ≡ in_room self.old.built room }
    {
        self.room = room;
    }

    /// Returns the number of objects built so far.
    #[inline(always)]
    pub fn count(&self) -> u64
        ensures { result ≡ length self.now.built.objects }
    {
        self.heap.count()
    }

    /// Returns the number of 64-bit words of all objects together.
    #[inline(always)]
    pub fn words(&self) -> u64
        ensures { result ≡ heap_words self.now.built.objects }
    {
        self.heap.words()
    }

    /// Stores a value as the root, or as the next field of the innermost open block.
    #[inline(always)]
    fn fill(&mut self, v: Val)
        requires { IsValue (length self.old.built.objects) v }
        ensures { self.new ≡ fill_in v self.old }
    {
        let word = self.heap.word(v);
        settle(&self.heap, &mut self.inner, &mut self.outer);
        fill_next(
            &mut self.heap,
            &mut self.inner,
            &self.outer,
            &mut self.root,
            v,
            word,
        );
    }

    /// Adds an integer token to the graph.
    #[tactic(auto, using(crate::proofs::AbsorbLemmas::absorbed_integer))]
    pub fn integer(&mut self, value: i64)
        requires { IsInteger value }
        ensures { self.new ≡ absorb_in self.old (integer_token value) }
    {
        self.fill(Val::Int(value));
    }

    /// Adds an atom (a block without fields). The function is not inlined, because atoms are rare.
    #[tactic(auto, using(crate::proofs::AbsorbLemmas::absorbed_atom))]
    #[inline(never)]
    pub fn atom(&mut self, tag: u8)
        requires { tag ≤ 243 }
        ensures { self.new ≡ absorb_in self.old (atom_token tag) }
    {
        self.fill(Val::Atom(tag));
    }

    /// Adds a reference to the object `offset` numbers before the next object. The function is not
    /// inlined, because the loop of a run needs the registers.
    #[tactic(auto, using(crate::proofs::AbsorbLemmas::absorbed_shared))]
    #[inline(never)]
    pub fn shared(&mut self, offset: u64)
        requires some { 1 ≤ offset }
        requires there { offset ≤ length self.old.built.objects }
        ensures { self.new ≡ absorb_in self.old (shared_token offset) }
    {
        let count = self.heap.count();
        self.fill(Val::Ref(count - offset));
    }

    /// Adds a block whose fields follow, or an atom if `size` is 0. Fails with `Memory` if memory
    /// runs out.
    #[inline(always)]
    pub fn block(&mut self, tag: u8, size: u64) -> Result<(), Memory>
        requires range { tag ≤ 243 }
        requires small { size < 2 ^ 53 }
        requires fits { Fits self.old (block_measure size) }
        ensures { OnOk result (self.new ≡ absorb_in self.old (block_or_atom tag size)) }
    {
        if size == 0 {
            self.atom(tag);
            return Ok(());
        }
        let object = self.heap.add_block(tag, size)?;
        let at = self.heap.word(Val::Ref(object));
        self.fill(Val::Ref(object));
        let block = PendingBlock {
            object,
            next: 0,
            size,
            at,
        };
        open_block(&mut self.inner, &mut self.outer, block)?;
        Ok(())
    }

    /// Adds a block whose fields follow, if the block needs no new memory. Returns whether the
    /// block was added.
    #[inline(always)]
    pub fn block_in_room(&mut self, tag: u8, size: u64) -> bool
        requires range { tag ≤ 243 }
        requires some { 0 < size }
        requires small { size < 2 ^ 53 }
        requires fits { Fits self.old (Some (measures.Block size)) }
        ensures { MatchBool result (self.new ≡ absorb_in self.old (block_token tag size))
            (self.new ≡ self.old) }
    {
        if self.outer.len() == self.outer.capacity() {
            return false;
        }
        let object = self.heap.count();
        let Some(at) = self.heap.add_block_in_room(tag, size) else {
            return false;
        };
        settle(&self.heap, &mut self.inner, &mut self.outer);
        fill_next(
            &mut self.heap,
            &mut self.inner,
            &self.outer,
            &mut self.root,
            Val::Ref(object),
            at,
        );
        let block = PendingBlock {
            object,
            next: 0,
            size,
            at,
        };
        open_in_room(&mut self.inner, &mut self.outer, block);
        true
    }

    /// Adds a string. Fails with `Memory` if memory runs out.
    pub fn bytes(&mut self, content: &[u8]) -> Result<(), Memory>
        requires small { length content.now < 2 ^ 53 }
        requires fits { Fits self.old (Some (measures.Bytes (length content.now))) }
        ensures { OnOk result (self.new ≡ absorb_in self.old (leaf (objects.Bytes content.now))) }
    {
        let object = self.heap.add_bytes_of(content)?;
        self.fill(Val::Ref(object));
        Ok(())
    }

    /// Adds a string, if the string needs no new memory. Returns whether the string was added.
    #[inline(always)]
    pub fn bytes_in_room(&mut self, content: &[u8]) -> bool
        requires small { length content.now < 2 ^ 53 }
        requires fits { Fits self.old (Some (measures.Bytes (length content.now))) }
        ensures { MatchBool result
            (self.new ≡ absorb_in self.old (leaf (objects.Bytes content.now)))
            (self.new ≡ self.old) }
    {
        let object = self.heap.count();
        let Some(at) = self.heap.add_bytes_in_room(content) else {
            return false;
        };
        settle(&self.heap, &mut self.inner, &mut self.outer);
        fill_next(
            &mut self.heap,
            &mut self.inner,
            &self.outer,
            &mut self.root,
            Val::Ref(object),
            at,
        );
        true
    }

    /// Adds a double. Fails with `Memory` if memory runs out.
    pub fn double(&mut self, bits: u64) -> Result<(), Memory>
        requires { Fits self.old (Some measures.Double) }
        ensures { OnOk result (self.new ≡ absorb_in self.old (leaf (objects.Double bits))) }
    {
        let object = self.heap.add_double(bits)?;
        self.fill(Val::Ref(object));
        Ok(())
    }

    /// Adds a double, if the double needs no new memory. Returns whether the double was added.
    #[inline(always)]
    pub fn double_in_room(&mut self, bits: u64) -> bool
        requires { Fits self.old (Some measures.Double) }
        ensures { MatchBool result (self.new ≡ absorb_in self.old (leaf (objects.Double bits)))
            (self.new ≡ self.old) }
    {
        let object = self.heap.count();
        let Some(at) = self.heap.add_double_in_room(bits) else {
            return false;
        };
        settle(&self.heap, &mut self.inner, &mut self.outer);
        fill_next(
            &mut self.heap,
            &mut self.inner,
            &self.outer,
            &mut self.root,
            Val::Ref(object),
            at,
        );
        true
    }

    /// Adds an array of doubles. Fails with `Memory` if memory runs out.
    pub fn doubles(&mut self, all: Vec<u64>) -> Result<(), Memory>
        requires some { 0 < vec_len all }
        requires small { vec_len all < 2 ^ 53 }
        requires fits { Fits self.old (Some (measures.Doubles (vec_len all))) }
        ensures { OnOk result (self.new ≡ absorb_in self.old (leaf (objects.Doubles all.items))) }
    {
        let object = self.heap.add_doubles_of(all)?;
        self.fill(Val::Ref(object));
        Ok(())
    }

    /// Adds a custom block. Fails with `Memory` if memory runs out.
    pub fn custom(&mut self, value: Custom) -> Result<(), Memory>
        requires { Fits self.old (leaf_measure (custom_object value)) }
        ensures { OnOk result (self.new ≡ absorb_in self.old (leaf (custom_object value))) }
    {
        let object = self.heap.add_custom(value)?;
        self.fill(Val::Ref(object));
        Ok(())
    }

    /// Resets the builder, which then contains no objects and allows no words. The builder keeps
    /// its memory.
    pub fn restart(&mut self)
        ensures { self.new ≡ empty 0 }
    {
        self.heap.clear();
        self.inner = PendingBlock {
            object: 0,
            next: 0,
            size: 0,
            at: 0,
        };
        self.outer.clear();
        self.root = None;
        self.room = 0;
    }

    /// Borrows the complete graph and its root.
    pub fn borrow(&self) -> Borrowed<'_>
        requires { IsSome self.now.built.root }
        ensures heap { result.heap.now ≡ self.now.built.objects }
        ensures root { self.now.built.root ≡ Some result.root }
    {
        Borrowed {
            heap: &self.heap,
            root: self.root.unwrap(),
        }
    }

    /// Returns the complete graph and its root.
    pub fn finish(self) -> Value
        requires { IsSome self.built.root }
        ensures heap { result.heap ≡ self.built.objects }
        ensures root { self.built.root ≡ Some result.root }
    {
        let Builder {
            heap,
            inner: _,
            outer: _,
            root,
            room: _,
        } = self;
        Value {
            heap,
            root: root.unwrap(),
        }
    }
}
