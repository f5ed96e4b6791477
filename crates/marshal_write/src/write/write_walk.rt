//! Enumerates the tokens of a value, depth first, fields from left to right. The first visit to an
//! object gives the object's own token. Each further visit gives a reference to the object.

ghost use Rattle.std.specs.Prelude.{◌≡◌, ◌≢◌, ◌+◌, ◌-◌, ◌*◌, ◌≤◌, ◌<◌, ◌^◌, ◌∷◌, ◌++◌, [], length};
ghost use Rattle.std.specs.Prelude.{true, All, IfSome, IfNone, IfOk, IsOk, OnOk, MatchOption};
ghost use Rattle.std.specs.Prelude.{vec_len, vec_capacity, slice_index};
ghost use Rattle.base_data.specs.declared.model.value.Val.TheVariants as vals;
ghost use Rattle.base_data.specs.model.Graph.{IsValue};
ghost use Rattle.marshal_spec.specs.format.Isomorphism.{IsTreeOf};
ghost use Rattle.marshal_spec.specs.format.Tree.{Tree, tokens};
ghost use Rattle.marshal_heap.specs.heap.Heap.{IsHeap, IsFieldWord, IsOfKind, object_at, fields_of};
ghost use Rattle.marshal_heap.specs.heap.Heap.{kind_of};
ghost use Rattle.marshal_heap.specs.heap.Heap.{position, word_of};
ghost use Rattle.marshal_write.specs.write.Marks.{marks_of};
ghost use Rattle.marshal_write.specs.write.WriteStep.{IsNext, IsHeld, token_in, object_token};
ghost use Rattle.marshal_write.specs.write.WriteWalk.{IsFrame, IsOuter, fields_left, left_in};
ghost use Rattle.marshal_write.specs.write.WriteWalk.{left_of, pending};
ghost use Rattle.marshal_write.specs.write.WriteWalk.{Takes, IsMet, IsWalk};

use crate::write::marks::Marks;
use base_data::model::Memory;
use base_data::model::value::Val;
use marshal_heap::heap::{Heap, Kind};
use std::alloc::Global;

/// A token. An object without fields is given by the object's number and the word that refers to
/// the object.
#[derive(Clone, Copy)]
pub enum WriteStep {
    Integer(i64),
    Atom(u8),
    /// A reference to an earlier object, given by the distance back from the next object.
    Shared(u64),
    Block(u8, u64),
    Leaf(u64, u64),
}

/// A block and the words of its remaining fields.
#[derive(Clone, Copy)]
pub struct RemainingFields<'a> {
    block: u64,
    rest: &'a [u64],
}

impl<'a> RemainingFields<'a> {
    // Removes and returns the word of the next field.
    #[inline(always)]
    fn take(&mut self, heap: &Heap) -> Option<u64>
        requires { IsFrame heap.now self.old }
        ensures takes { Takes heap.now (fields_left heap.now self.old)
            (fields_left heap.now self.new) result }
        ensures frame { IsFrame heap.now self.new }
    {
        let (word, rest) = self.rest.split_first()?;
        self.rest = rest;
        Some(*word)
    }
}

/// A position in the sequence of the tokens of a value.
#[derive(Drop)]
pub struct WriteWalk<'a> {
    root: Val,
    // The number of tokens returned so far, and the number of objects visited.
    given: u64,
    count: u64,
    // True if the walk has returned all tokens once before.
    again: bool,
    marks: Marks,
    // The word of the object after the visited objects, if the objects are visited in order.
    next: u64,
    // The innermost block, and the outer blocks that have remaining fields.
    last: RemainingFields<'a>,
    frames: Vec<RemainingFields<'a>>,
}

impl<'a> WriteWalk<'a> {
    /// Creates a walk before the first token of a value.
    pub fn new(alloc: Global, heap: &'a Heap, root: Val) -> Result<WriteWalk<'a>, Memory>
        requires { IsValue (length heap.now) root }
        ensures walk { IfOk result (IsWalk heap.now) }
        ensures root { IfOk result (λ w. w.root ≡ root) }
        ensures given { IfOk result (λ w. w.given ≡ 0) }
    {
        let objects = heap.count();
        Ok(WriteWalk {
            root,
            given: 0,
            count: 0,
            again: false,
            marks: Marks::new(alloc, objects),
            next: 0,
            last: RemainingFields {
                block: 0,
                rest: &[],
            },
            frames: Vec::with_capacity(alloc, objects as usize)?,
        })
    }

    /// Returns the marks of the visited objects.
    pub fn into_marks(self) -> Marks
        ensures { result ≡ self.entry.marks }
    {
        let WriteWalk {
            root: _,
            given: _,
            count: _,
            again: _,
            marks,
            next: _,
            last: _,
            frames: _,
        } = self;
        marks
    }

    /// Moves the walk from the end back to the position before the first token.
    pub fn restart(&mut self, heap: &Heap)
        requires walk { IsWalk heap.now self.old }
        requires end { (tree : Tree) → IsTreeOf heap.now self.old.root tree
            → self.old.given ≡ length (tokens tree) }
        ensures walk { IsWalk heap.now self.new }
        ensures root { self.new.root ≡ self.old.root }
        ensures given { self.new.given ≡ 0 }
        ensures again { self.new.again ≡ true }
    {
        let _graph = heap.count();
        self.given = 0;
        self.count = 0;
        self.again = true;
        self.marks.clear();
        self.next = 0;
        self.last = RemainingFields {
            block: 0,
            rest: &[],
        };
        self.frames.clear();
    }

    /// Returns the next token, or `None` at the end. The function may allocate memory, unless the
    /// walk has returned all tokens once before.
    #[inline(always)]
    pub fn next(&mut self, heap: &'a Heap) -> Result<Option<WriteStep>, Memory>
        requires { IsWalk heap.now self.old }
        ensures walk { OnOk result (IsWalk heap.now self.new) }
        ensures root { OnOk result (self.new.root ≡ self.old.root) }
        ensures again { self.new.again ≡ self.old.again }
        ensures next { (tree : Tree) → IsTreeOf heap.now self.old.root tree
            → IfOk result
            (λ step. IsNext heap.now (tokens tree) self.old.given step self.new.given) }
        ensures held { IfOk result (λ step. IfSome step (IsHeld heap.now)) }
        ensures succeeds { self.old.again ≡ true → IsOk result }
    {
        let Some((v, word)) = self.next_value(heap) else {
            return Ok(None);
        };
        self.given += 1;
        match v {
            Val::Int(z) => Ok(Some(WriteStep::Integer(z))),
            Val::Atom(tag) => Ok(Some(WriteStep::Atom(tag))),
            Val::Ref(k) => Ok(Some(self.meet(heap, k, word)?)),
        }
    }

    /// Returns the next token in a repeated walk. The function allocates no memory.
    #[inline(always)]
    pub fn next_again(&mut self, heap: &'a Heap) -> Option<WriteStep>
        requires walk { IsWalk heap.now self.old }
        requires again { self.old.again ≡ true }
        ensures walk { IsWalk heap.now self.new }
        ensures root { self.new.root ≡ self.old.root }
        ensures again { self.new.again ≡ true }
        ensures next { (tree : Tree) → IsTreeOf heap.now self.old.root tree
            → IsNext heap.now (tokens tree) self.old.given result self.new.given }
        ensures held { IfSome result (IsHeld heap.now) }
    {
        match self.next(heap) {
            Ok(step) => step,
            Err(_) => unreachable!(),
        }
    }

    // Returns the next value and its word. The first value is the root. Each further value is the
    // next field of the innermost block that has a remaining field.
    #[inline(always)]
    fn next_value(&mut self, heap: &Heap) -> Option<(Val, u64)>
        requires heap { IsHeap heap.now }
        requires last { IsFrame heap.now self.old.last }
        requires frames { All (IsOuter heap.now) self.old.frames.items }
        requires root { IsValue (length heap.now) self.old.root }
        requires next { self.old.marks.ordered ≡ true
            → self.old.next ≡ 8 * position heap.now self.old.count }
        ensures value { MatchOption result (pending heap.now self.old ≡ [])
            (λ r. pending heap.now self.old ≡ r.0 ∷ left_of heap.now self.new) }
        ensures valid { IfSome result (λ r. IsValue (length heap.now) r.0) }
        ensures word { IfSome result (λ r. r.1 ≡ word_of heap.now r.0) }
        ensures last { IsFrame heap.now self.new.last }
        ensures frames { All (IsOuter heap.now) self.new.frames.items }
        ensures depth { vec_len self.new.frames ≤ vec_len self.old.frames }
        ensures capacity { vec_capacity self.new.frames ≡ vec_capacity self.old.frames }
        ensures frame { self.new
            ≡ record self.old { last = self.new.last; frames = self.new.frames } }
        ensures none { IfNone result (left_of heap.now self.new ≡ left_of heap.now self.old) }
    {
        if self.given == 0 {
            return Some((self.root, heap.word(self.root)));
        }
        let word = self.next_word(heap)?;
        Some((self.value_of(heap, word), word))
    }

    // Returns the word of the next field of the innermost block that has a remaining field.
    #[inline(always)]
    fn next_word(&mut self, heap: &Heap) -> Option<u64>
        requires last { IsFrame heap.now self.old.last }
        requires frames { All (IsOuter heap.now) self.old.frames.items }
        ensures takes { Takes heap.now (left_of heap.now self.old) (left_of heap.now self.new)
            result }
        ensures last { IsFrame heap.now self.new.last }
        ensures frames { All (IsOuter heap.now) self.new.frames.items }
        ensures depth { vec_len self.new.frames ≤ vec_len self.old.frames }
        ensures capacity { vec_capacity self.new.frames ≡ vec_capacity self.old.frames }
        ensures frame { self.new
            ≡ record self.old { last = self.new.last; frames = self.new.frames } }
    {
        if let Some(word) = self.last.take(heap) {
            return Some(word);
        }
        self.last = self.frames.pop()?;
        self.last.take(heap)
    }

    // Returns the value of a word. As long as objects are visited in order, the function recognizes
    // the next object by its word.
    #[inline(always)]
    fn value_of(&self, heap: &Heap, word: u64) -> Val
        requires heap { IsHeap heap.now }
        requires word { IsFieldWord heap.now word }
        requires next { self.now.marks.ordered ≡ true
            → self.now.next ≡ 8 * position heap.now self.now.count }
        ensures word { word ≡ word_of heap.now result }
        ensures valid { IsValue (length heap.now) result }
    {
        if word % 8 == 0 && self.marks.is_ordered() && word == self.next {
            Val::Ref(self.count)
        } else {
            heap.value_of(word)
        }
    }

    // Returns the token of object `k`: at the first visit the object's own token, at each further
    // visit a reference. Marks a new object as visited.
    #[inline(always)]
    fn meet(&mut self, heap: &'a Heap, k: u64, word: u64) -> Result<WriteStep, Memory>
        requires heap { IsHeap heap.now }
        requires inside { k < length heap.now }
        requires word { word ≡ word_of heap.now (vals.Ref k) }
        requires marks { length (marks_of self.old.marks) ≡ length heap.now }
        requires behind { slice_index (marks_of self.old.marks) k ≤ self.old.count }
        requires last { IsFrame heap.now self.old.last }
        requires frames { All (IsOuter heap.now) self.old.frames.items }
        requires room { slice_index (marks_of self.old.marks) k ≡ 0
            → vec_len self.old.frames < vec_capacity self.old.frames }
        requires few { slice_index (marks_of self.old.marks) k ≡ 0 → self.old.count + 1 < 2 ^ 64 }
        requires met { self.old.marks.ordered ≡ true → self.old.marks.met ≡ self.old.count }
        requires order { self.old.again ≡ true → self.old.marks.ordered ≡ true
            → slice_index (marks_of self.old.marks) k ≡ 0 → k ≡ self.old.count }
        ensures met { slice_index (marks_of self.old.marks) k ≡ 0
            → IfOk result (IsMet heap.now k self.old self.new) }
        ensures again { slice_index (marks_of self.old.marks) k ≢ 0
            → (self.new ≡ self.old)
            × IfOk result
            (λ step. step
            ≡ WriteStep.Shared
            (self.old.count - (slice_index (marks_of self.old.marks) k - 1))) }
        ensures same { self.new.again ≡ self.old.again }
        ensures held { IfOk result (IsHeld heap.now) }
        ensures succeeds { self.old.again ≡ true → IsOk result }
    {
        let mark = self.marks.get(k);
        if mark != 0 {
            return Ok(WriteStep::Shared(self.count - (mark - 1)));
        }
        self.marks.set(k, self.count + 1)?;
        self.count += 1;
        Ok(self.enter(heap, k, word))
    }

    // Returns the token of an object at its first visit. If the object is a block, the block's
    // fields are the next values of the walk.
    #[inline(always)]
    fn enter(&mut self, heap: &'a Heap, k: u64, word: u64) -> WriteStep
        requires heap { IsHeap heap.now }
        requires inside { k < length heap.now }
        requires word { word ≡ word_of heap.now (vals.Ref k) }
        requires last { IsFrame heap.now self.old.last }
        requires frames { All (IsOuter heap.now) self.old.frames.items }
        requires room { vec_len self.old.frames < vec_capacity self.old.frames }
        ensures left { left_of heap.now self.new
            ≡ fields_of (object_at heap.now k) ++ left_of heap.now self.old }
        ensures last { IsFrame heap.now self.new.last }
        ensures frames { All (IsOuter heap.now) self.new.frames.items }
        ensures depth { vec_len self.new.frames ≤ vec_len self.old.frames + 1 }
        ensures capacity { vec_capacity self.new.frames ≡ vec_capacity self.old.frames }
        ensures token { token_in heap.now result ≡ object_token (object_at heap.now k) }
        ensures held { IsHeld heap.now result }
        ensures next { self.new.next ≡ 8 * position heap.now (k + 1) }
        ensures frame { self.new
            ≡ record self.old
            { next = self.new.next; last = self.new.last; frames = self.new.frames } }
    {
        let header = heap.header_at(word);
        self.next = word + 8 * (header / 1024 + 1);
        if header % 1024 < 244 {
            self.open(
                heap,
                RemainingFields {
                    block: k,
                    rest: heap.fields_at(word),
                },
            );
            WriteStep::Block((header % 1024) as u8, header / 1024)
        } else {
            WriteStep::Leaf(k, word)
        }
    }

    // Makes the fields of a block the next values of the walk.
    #[inline(always)]
    fn open(&mut self, heap: &Heap, inner: RemainingFields<'a>)
        requires last { IsFrame heap.now self.old.last }
        requires frames { All (IsOuter heap.now) self.old.frames.items }
        requires room { vec_len self.old.frames < vec_capacity self.old.frames }
        ensures last { self.new.last ≡ inner.entry }
        ensures left { left_in heap.now self.new.frames.items ≡ left_of heap.now self.old }
        ensures frames { All (IsOuter heap.now) self.new.frames.items }
        ensures depth { vec_len self.new.frames ≤ vec_len self.old.frames + 1 }
        ensures capacity { vec_capacity self.new.frames ≡ vec_capacity self.old.frames }
        ensures frame { self.new
            ≡ record self.old { last = self.new.last; frames = self.new.frames } }
    {
        if self.last.rest.is_empty() {
            self.last = inner;
            return;
        }
        self.frames.push_reserved(self.last);
        self.last = inner;
    }
}

/// Returns the kind and size of object `k`, to which `word` refers.
#[inline(always)]
pub fn kind_at(heap: &Heap, k: u64, word: u64) -> Kind
    requires inside { k < length heap.now }
    requires word { word ≡ word_of heap.now (vals.Ref k) }
    ensures kind { result ≡ kind_of (object_at heap.now k) }
    ensures object { IsOfKind result (object_at heap.now k) }
{
    heap.kind_at(word)
}
