//! A depth-first traversal of a value at a type. The traversal visits parts from left to right and
//! yields the chunks of the value's text.

ghost use Rattle.std.specs.Prelude.{◌≡◌, ◌<◌, ◌≤◌, ◌+◌, option_map, length, Some, None, All, IfOk};
ghost use Rattle.std.specs.Prelude.{OnOk, IsTrue, [], true, false, slice_index, slice_index_or};
ghost use Rattle.std.specs.Prelude.{vec_len};
ghost use Rattle.base_data.specs.model.Graph.{IsValue};
ghost use Rattle.base_data.specs.declared.model.value.Val.TheVariants as vals;
ghost use Rattle.base_data.specs.declared.model.value.Obj.TheVariants as objects;
ghost use Rattle.types_spec.specs.types.Fitting.{or_none, is_asked, fields_of as needed_of};
ghost use Rattle.marshal_heap.specs.heap.Heap.{object_at, fields_of, word_of, IsFieldWord};
ghost use Rattle.check_heap.specs.fits.Needs.{needs_in};
ghost use Rattle.text_print.specs.leaves.Frames.{frame_of};
ghost use Rattle.text_print.specs.leaves.FrameView.{frame_in};
ghost use Rattle.text_print.specs.show.TableShapes.{shape_in, names_in};
ghost use Rattle.types_table.specs.type_table.Made.{table_of};
ghost use Rattle.text_print.specs.print.PrintLevels.{levels_of, last_outside, IsPassed};
ghost use Rattle.text_print.specs.print.Typed.{IsTypedAt};
ghost use Rattle.text_print.specs.print.PrintWalk.{left_of, chunks_left, IsOpen, IsWalk, Goes};
ghost use Rattle.text_print.specs.print.PrintWalk.{Gives};

use crate::leaves::{Frame, block_frame};
use crate::print::ends::end_of;
use crate::print::open_block::OpenBlock;
use crate::print::visit_order::VisitOrder;
use base_data::model::Memory;
use base_data::model::value::Val;
use check_heap::fits::{Needs, is_asked, known_needs};
use marshal_heap::heap::{Heap, Kind, NumberedObject, Rooted};
use std::alloc::Global;
use types_table::type_table::TypeTable;

/// One step of the traversal. A step at the first visit of an object stands for two chunks, and any
/// other step stands for one chunk.
#[derive(Clone, Copy)]
pub enum PrintStep<'a> {
    /// An integer, and the number of its type.
    Integer(i64, usize),
    /// The array without elements.
    Empty,
    /// A value at a wildcard type.
    Wildcard,
    /// An object that was visited before.
    Again(u64),
    /// An object without parts, and the number of its type.
    Leaf(u64, usize),
    /// A block, and the text around the parts of the block.
    Opening(u64, Frame<'a>),
    /// The text before a part, which is given by its index.
    Before(Frame<'a>, u64),
    /// The text after the last part, given by the code of the block's end.
    Closing(u8),
}

/// A position among the chunks of a value. If the last part of a block has begun, the traversal
/// keeps only the end of the block. A long list therefore takes one byte for each item.
#[derive(Drop)]
pub struct PrintWalk<'a> {
    // The next value and its type number, if a value comes next.
    pub value: Option<(Val, usize)>,
    // The blocks with remaining parts. The innermost block is the last in the list.
    pub stack: Vec<OpenBlock<'a>>,
    // The ends of the open blocks without remaining parts. The innermost end is the last in the
    // list.
    pub ends: Vec<u8>,
    // For each object, whether the object was visited. `order` lists the objects in the order of
    // the visits.
    pub marks: Vec<bool>,
    pub order: VisitOrder,
}

impl<'a> PrintWalk<'a> {
    /// Returns the state of the traversal before the first chunk.
    pub fn new(
        alloc: Global,
        value: &Rooted<'_>,
        table: &TypeTable,
        at: usize,
    ) -> Result<PrintWalk<'a>, Memory>
        requires typed { IsTypedAt (table_of table.now) value.now.heap.now value.now.root at }
        ensures walk { IfOk result (IsWalk table.now value.now.heap.now) }
        ensures value { IfOk result (λ walk. walk.value ≡ Some (value.now.root, at)) }
        ensures blocks { IfOk result (λ walk. walk.stack.items ≡ []) }
        ensures ends { IfOk result (λ walk. walk.ends.items ≡ []) }
        ensures order { IfOk result (λ walk. walk.order ≡ []) }
    {
        Ok(PrintWalk {
            value: Some((value.root, at)),
            stack: Vec::new(alloc),
            ends: Vec::new(alloc),
            marks: vec![in alloc; false; value.heap.count() as usize]?,
            order: VisitOrder::new(alloc, first_object(value.root)),
        })
    }

    /// Returns the next step.
    #[inline(always)]
    pub fn next(
        &mut self,
        heap: &'a Heap,
        table: &'a TypeTable,
    ) -> Result<Option<PrintStep<'a>>, Memory>
        requires walk { IsWalk table.now heap.now self.old }
        ensures { IfOk result
            (Gives table.now heap.now (chunks_left table.now heap.now self.old) self.old.order
            self.new) }
    {
        let Some((v, at)) = self.value else {
            return self.go_on(heap, table);
        };
        self.value = None;
        let value = Rooted { heap, root: v };
        Ok(Some(self.meet(&value, table, at)?))
    }

    // Returns the step of the next value.
    #[inline(always)]
    fn meet(
        &mut self,
        value: &Rooted<'a>,
        table: &'a TypeTable,
        at: usize,
    ) -> Result<PrintStep<'a>, Memory>
        requires walk { IsWalk table.now value.now.heap.now self.old }
        requires none { self.old.value ≡ None }
        requires typed { IsTypedAt (table_of table.now) value.now.heap.now value.now.root at }
        ensures none { IfOk result (λ _. self.new.value ≡ None) }
        ensures goes { IfOk result
            (λ step. Goes table.now value.now.heap.now
            (left_of table.now value.now.heap.now (levels_of self.old) (Some (value.now.root, at))
            self.old.order)
            self.old.order step self.new) }
    {
        let heap = value.heap;
        let v = value.root;
        if !is_asked(table.shape(at)) {
            return Ok(PrintStep::Wildcard);
        }
        match v {
            Val::Int(z) => Ok(PrintStep::Integer(z, at)),
            Val::Atom(_) => Ok(PrintStep::Empty),
            Val::Ref(o) if self.marks[o as usize] => Ok(PrintStep::Again(o)),
            Val::Ref(o) => self.meet_first(&NumberedObject { heap, object: o }, table, at),
        }
    }

    // Returns the step of an object that was not visited before.
    #[inline(always)]
    fn meet_first(
        &mut self,
        placed: &NumberedObject<'a>,
        table: &'a TypeTable,
        at: usize,
    ) -> Result<PrintStep<'a>, Memory>
        requires walk { IsWalk table.now placed.now.heap.now self.old }
        requires none { self.old.value ≡ None }
        requires unmet { slice_index_or self.old.marks.items placed.now.object false ≡ false }
        requires typed { IsTypedAt (table_of table.now) placed.now.heap.now
            (vals.Ref placed.now.object) at }
        requires asked { IsTrue (is_asked (shape_in table.now at)) }
        ensures none { IfOk result (λ _. self.new.value ≡ None) }
        ensures goes { IfOk result
            (λ step. Goes table.now placed.now.heap.now
            (left_of table.now placed.now.heap.now (levels_of self.old)
            (Some (vals.Ref placed.now.object, at)) self.old.order)
            self.old.order step self.new) }
    {
        let heap = placed.heap;
        let o = placed.object;
        self.marks[o as usize] = true;
        self.order.push(o)?;
        let Kind::Block(tag, _) = heap.kind(o) else {
            return Ok(PrintStep::Leaf(o, at));
        };
        let word = heap.word(Val::Ref(o));
        let block = open_block(placed, table, word, tag, at, self.ends.len());
        self.stack.push(block)?;
        Ok(PrintStep::Opening(o, block.frame))
    }

    // Returns the next step if no value is pending. The step is the end of the innermost level, or
    // comes before the next part of the innermost block.
    #[inline(always)]
    pub fn go_on(&mut self, heap: &Heap, table: &TypeTable) -> Result<Option<PrintStep<'a>>, Memory>
        requires walk { IsWalk table.now heap.now self.old }
        requires none { self.old.value ≡ None }
        ensures { IfOk result
            (Gives table.now heap.now
            (left_of table.now heap.now (levels_of self.old) None self.old.order)
            self.old.order self.new) }
    {
        if self.has_end() {
            let last = self.ends.len() - 1;
            let end = self.ends[last];
            self.ends.truncate(last);
            return Ok(Some(PrintStep::Closing(end)));
        }
        if self.stack.is_empty() {
            return Ok(None);
        }
        Ok(Some(self.go_in(heap, table)?))
    }

    // Returns the step before the next part of the innermost block. If the block has no next part,
    // returns the step after the last part.
    #[inline(always)]
    fn go_in(&mut self, heap: &Heap, table: &TypeTable) -> Result<PrintStep<'a>, Memory>
        requires walk { IsWalk table.now heap.now self.old }
        requires none { self.old.value ≡ None }
        requires inside { 0 < vec_len self.old.stack }
        requires innermost { vec_len self.old.ends ≤ last_outside 0 self.old.stack.items }
        ensures { IfOk result
            (λ step. Goes table.now heap.now
            (left_of table.now heap.now (levels_of self.old) None self.old.order)
            self.old.order step self.new) }
    {
        let last = self.stack.len() - 1;
        let block = self.stack[last];
        if block.next >= block.needs.len() {
            self.stack.truncate(last);
            return Ok(PrintStep::Closing(end_of(&block.frame)));
        }
        let (i, at) = block.needs.get(block.next);
        let v = value_at(heap, block.fields, i, self.order.next());
        let next = block.next + 1;
        let end = block.last_end();
        self.pass_part(last, next, end)?;
        self.value = Some((v, at));
        Ok(PrintStep::Before(block.frame, block.next))
    }

    // Returns how many ends belong to levels outside of the innermost block.
    #[inline(always)]
    fn outside(&self) -> usize
        ensures { result ≡ last_outside 0 self.now.stack.items }
    {
        if self.stack.is_empty() {
            return 0;
        }
        self.stack[self.stack.len() - 1].outside
    }

    /// Returns true if the innermost level is an end.
    #[inline(always)]
    pub fn has_end(&self) -> bool
        ensures some { result ≡ true → last_outside 0 self.now.stack.items < vec_len self.now.ends }
        ensures none { result ≡ false
            → vec_len self.now.ends ≤ last_outside 0 self.now.stack.items }
    {
        self.outside() < self.ends.len()
    }

    /// Returns true if no level is left.
    #[inline(always)]
    pub fn has_none(&self) -> bool
        ensures none { result ≡ true → self.now.stack.items ≡ [] }
        ensures no_end { result ≡ true → self.now.ends.items ≡ [] }
        ensures some { result ≡ false → 0 < vec_len self.now.stack + vec_len self.now.ends }
    {
        self.stack.is_empty() && self.ends.is_empty()
    }

    /// Moves to the next part of the innermost block. If the current part is the last part, then
    /// `end` is the end of the block, and the block is replaced by `end`.
    #[inline(always)]
    pub fn pass_part(&mut self, last: usize, next: u64, end: Option<u8>) -> Result<(), Memory>
        requires { last + 1 ≡ vec_len self.old.stack }
        ensures { OnOk result (IsPassed self.old self.new next end) }
    {
        match end {
            Some(end) => {
                self.ends.push(end)?;
                self.stack.truncate(last);
            }
            None => {
                self.stack[last].next = next;
            }
        }
        Ok(())
    }
}

// Returns the object to which a value refers, or 0 if the value is not a reference.
fn first_object(v: Val) -> u64 {
    match v {
        Val::Ref(o) => o,
        _ => 0,
    }
}

// Returns the value of a field, given the words of all fields. The fast path is a reference to the
// object `near`.
#[inline(always)]
pub fn value_at(heap: &Heap, fields: &[u64], i: u64, near: u64) -> Val
    requires valid { All (IsFieldWord heap.now) fields.now }
    requires inside { i < length fields.now }
    ensures word { slice_index fields.now i ≡ word_of heap.now result }
    ensures valid { IsValue (length heap.now) result }
{
    let word = fields[i as usize];
    if word % 2 == 0 && near < heap.count() && word == heap.word(Val::Ref(near)) {
        return Val::Ref(near);
    }
    heap.value_of(word)
}

// Returns the open block of an object, before its first part. `outside` is the number of pending
// ends of the blocks around the new block.
#[inline(always)]
pub fn open_block<'a>(
    placed: &NumberedObject<'a>,
    table: &'a TypeTable,
    word: u64,
    tag: u8,
    at: usize,
    outside: usize,
) -> OpenBlock<'a>
    requires block { object_at placed.now.heap.now placed.now.object
        ≡ objects.Block tag (fields_of (object_at placed.now.heap.now placed.now.object)) }
    requires word { word ≡ word_of placed.now.heap.now (vals.Ref placed.now.object) }
    requires typed { IsTypedAt (table_of table.now) placed.now.heap.now
        (vals.Ref placed.now.object) at }
    ensures object { result.object ≡ placed.now.object }
    ensures frame { frame_in result.frame
        ≡ frame_of (shape_in table.now at) (names_in table.now at) tag
        (fields_of (object_at placed.now.heap.now placed.now.object)) }
    ensures needs { needs_in result.needs
        ≡ or_none (needed_of placed.now.heap.now (vals.Ref placed.now.object)
        (shape_in table.now at)) }
    ensures next { result.next ≡ 0 }
    ensures outside { result.outside ≡ outside }
    ensures open { IsOpen table.now placed.now.heap.now result }
{
    let heap = placed.heap;
    let o = placed.object;
    table.holds();
    let _count = heap.count();
    let shape = table.shape(at);
    OpenBlock {
        object: o,
        fields: heap.fields_at(word),
        frame: block_frame(placed, tag, shape, table.names(at)),
        needs: needs_or_none(known_needs(heap, o, shape)),
        next: 0,
        outside,
    }
}

// Returns the given parts, or an empty list if no parts are given. The match names each variant,
// and therefore the components of a variant are copied one by one.
#[inline(always)]
fn needs_or_none(needs: Option<Needs<'_>>) -> Needs<'_>
    ensures { needs_in result ≡ or_none (option_map needs_in needs.entry) }
{
    match needs {
        Some(Needs::Listed(types)) => Needs::Listed(types),
        Some(Needs::Each(size, ty)) => Needs::Each(size, ty),
        Some(Needs::Argument(ty)) => Needs::Argument(ty),
        Some(Needs::Nothing) => Needs::Nothing,
        None => Needs::Nothing,
    }
}
