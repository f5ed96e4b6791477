//! Begins to read a part of a literal: makes the part's value, and a block if the part has parts of
//! its own.

ghost use Rattle.std.specs.Prelude.{ℕ, ◌≡◌, ◌<◌, ◌≤◌, ◌^◌, ◌++◌, true, Option, List, length};
ghost use Rattle.std.specs.Prelude.{option_and_then, slice_get, pos, replicate, IfOk, OnOk, OnErr};
ghost use Rattle.std.specs.Prelude.{IsTrue, IfSome, All};
ghost use Rattle.base_data.specs.model.Graph.{IsInteger};
ghost use Rattle.base_data.specs.declared.model.value.Obj.{Obj};
ghost use Rattle.base_data.specs.declared.model.value.Obj.TheVariants as objects;
ghost use Rattle.base_data.specs.declared.model.value.Val.TheVariants as vals;
ghost use Rattle.marshal_heap.specs.heap.Heap.{Appends};
ghost use Rattle.text_literal.specs.literal_grammar.Literal.{Literal, labelled, again, Plain};
ghost use Rattle.text_literal.specs.parser.LiteralAnswers.{shape_in, names_in};
ghost use Rattle.text_literal.specs.parser.LiteralLeaves as leaves;
ghost use Rattle.text_literal.specs.parser.LiteralLeaves.{leaf_in};
ghost use Rattle.text_literal.specs.parser.Openings as openings;
ghost use Rattle.text_literal.specs.parser.Openings.{opening_in, prefix_of};
ghost use Rattle.text_literal.specs.parser.LiteralReading.{is_next, with_label};
ghost use Rattle.text_literal.specs.parser.Started as started;
ghost use Rattle.text_literal.specs.parser.Started.{start_in};
ghost use Rattle.text_literal.specs.parser.Starts.{start_at};
ghost use Rattle.text_literal.specs.parser.Standing.{Stands, own_node, lead_of_plain};
ghost use Rattle.text_literal.specs.parser.Underway.{IsText, HasPart, IsMade, Begins, Grows};

use crate::literal_grammar::{LiteralNode, NodeForm};
use crate::parser::block_stack::Opened;
use crate::parser::leaf::Leaf;
use crate::parser::literal_fault::LiteralFault;
use crate::parser::literal_text::{LiteralText, byte_of, plain_first};
use crate::parser::opening::Opening;
use crate::parser::start::{Start, leaf_at, start_of};
use base_data::model::Memory;
use base_data::model::value::Val;
use marshal_heap::heap::Heap;
use std::alloc::Global;
use types_lex::lexeme::LexemeKind;

/// The value of a part that has begun, and the block whose own parts are still to be read, if the
/// part is a block.
#[derive(Clone, Copy)]
pub struct PartStart<'a> {
    pub value: Val,
    pub inner: Option<Opened<'a>>,
}

/// The result of making a literal at its type: a mismatch, an integer out of range, an integer, an
/// atom, a whole object, or an unfinished block.
#[derive(Clone, Copy)]
pub enum MadeLiteral<'a> {
    Mismatch,
    OutOfRange,
    Small(Val),
    Whole(u64),
    Block(Opened<'a>),
}

/// Returns true if there is no label, or if the label has the next number.
#[inline(always)]
fn has_next_number(labels: &[u64], label: Option<u64>) -> bool
    ensures { result ≡ is_next labels.now label }
{
    match label {
        Some(n) => n == labels.len() as u64,
        None => true,
    }
}

/// Returns the object that the label refers to, or `None` if the label has no object.
fn object_of(labels: &[u64], label: Option<u64>) -> Option<u64>
    ensures { result ≡ option_and_then (slice_get labels.now) label }
{
    match label {
        Some(n) => labels.get(n as usize).copied(),
        None => None,
    }
}

/// Reads a reference to a label.
fn again<'a>(
    text: &LiteralText,
    labels: &[u64],
    node: &LiteralNode,
) -> Result<PartStart<'a>, LiteralFault>
    ensures { (k n t : ℕ) (graph : List Obj) → node.now ≡ own_node k (again n)
        → All (λ o. o < length graph) labels.now
        → Begins text.now k (again n) t graph graph labels.now labels.now result }
{
    match object_of(labels, node.label) {
        Some(o) => Ok(PartStart {
            value: Val::Ref(o),
            inner: None,
        }),
        None => Err(LiteralFault::Label(byte_of(text.lexemes, text.end, node.first))),
    }
}

/// Returns a reference to object `o`. If there is a label, records `o` as the label's object. Fails
/// with `Memory` if memory runs out.
#[inline(always)]
fn reference(labels: &mut Vec<u64>, label: Option<u64>, o: u64) -> Result<Val, Memory>
    ensures value { IfOk result (λ value. value ≡ vals.Ref o) }
    ensures labels { OnOk result (labels.new.items ≡ with_label labels.old.items label o) }
    ensures kept { OnErr result (labels.new.items ≡ labels.old.items) }
{
    if label.is_some() {
        labels.push(o)?;
    }
    Ok(Val::Ref(o))
}

/// Appends a string object. Returns `Memory` if the string is too long for an object.
#[inline(always)]
fn add_text(heap: &mut Heap, bytes: &[u8]) -> Result<u64, Memory>
    ensures { Appends heap.old heap.new (objects.Bytes bytes.now) result }
{
    if bytes.len() >= 1 << 56 {
        return Err(Memory);
    }
    heap.add_bytes_of(bytes)
}

/// Returns true if an object can have `parts` parts: at least one part, and no more parts than
/// memory can hold.
fn can_have(parts: usize) -> bool
    ensures { IsTrue result → (0 < parts) × (parts < 2 ^ 53) }
{
    parts > 0 && parts < 1 << 53
}

/// Appends an object of doubles. Fails with `Memory` if memory runs out.
fn add_doubles(heap: &mut Heap, all: Vec<u64>) -> Result<u64, Memory>
    ensures { Appends heap.old heap.new (objects.Doubles all.items) result }
{
    if !can_have(all.len()) {
        return Err(Memory);
    }
    heap.add_doubles_of(all)
}

/// Appends a block with room for `parts` parts. If there is a hash, the block stores the hash
/// before the parts.
#[inline(always)]
fn add_parts(heap: &mut Heap, tag: u8, hash: Option<i64>, parts: usize) -> Result<u64, Memory>
    requires tag { tag ≤ 243 }
    requires hash { IfSome hash IsInteger }
    ensures block { Appends heap.old heap.new
        (objects.Block tag (prefix_of hash ++ replicate parts (vals.Int (pos 0)))) result }
    ensures many { OnOk result ((0 < parts) × (parts < 2 ^ 53)) }
{
    if !can_have(parts) {
        return Err(Memory);
    }
    let parts = parts as u64;
    match hash {
        Some(hash) => {
            let o = heap.add_block(tag, parts + 1)?;
            heap.set(o, 0, Val::Int(hash));
            Ok(o)
        }
        None => heap.add_block(tag, parts),
    }
}

/// Returns the number of fields before the parts of a block: 1 if there is a hash, and 0 if there
/// is none.
#[inline(always)]
fn prefix_len(hash: Option<i64>) -> u64
    ensures len { result ≡ length (prefix_of hash) }
    ensures few { result ≤ 1 }
{
    match hash {
        Some(_) => 1,
        None => 0,
    }
}

/// Appends the object of a string, a double or a custom value. An integer or an atom needs no
/// object.
#[inline(always)]
fn make_leaf<'a>(heap: &mut Heap, leaf: Leaf) -> Result<MadeLiteral<'a>, Memory>
    requires { leaves.IsSound leaf }
    ensures made { (parts : ℕ) → IfOk result (IsMade parts (leaf_in leaf.entry) heap.old heap.new) }
    ensures grows { Grows heap.old heap.new }
{
    match leaf {
        Leaf::Mismatch => Ok(MadeLiteral::Mismatch),
        Leaf::OutOfRange => Ok(MadeLiteral::OutOfRange),
        Leaf::Small(value) => Ok(MadeLiteral::Small(value)),
        Leaf::Bytes(bytes) => Ok(MadeLiteral::Whole(add_text(heap, bytes)?)),
        Leaf::Double(bits) => Ok(MadeLiteral::Whole(heap.add_double(bits)?)),
        Leaf::Custom(c) => Ok(MadeLiteral::Whole(heap.add_custom(c)?)),
    }
}

/// Appends a block whose parts are still to be read.
#[inline(always)]
fn make_block<'a>(
    heap: &mut Heap,
    opening: Opening<'a>,
    parts: usize,
    t: usize,
) -> Result<MadeLiteral<'a>, Memory>
    requires { openings.IsSound opening }
    ensures made { IfOk result (IsMade parts (opening_in t opening.entry) heap.old heap.new) }
    ensures grows { Grows heap.old heap.new }
{
    let Opening::Block(tag, hash, types) = opening else {
        return Ok(MadeLiteral::Mismatch);
    };
    let block = add_parts(heap, tag, hash, parts)?;
    Ok(MadeLiteral::Block(Opened {
        block,
        field: prefix_len(hash),
        part: 0,
        left: parts,
        types,
        at: t,
    }))
}

/// Makes a literal of `parts` parts from the literal's start at a type.
#[inline(always)]
fn make<'a>(
    heap: &mut Heap,
    start: Start<'a>,
    parts: usize,
    t: usize,
) -> Result<MadeLiteral<'a>, Memory>
    requires { started.IsSound start }
    ensures made { IfOk result (IsMade parts (start_in t start.entry) heap.old heap.new) }
    ensures grows { Grows heap.old heap.new }
{
    match start {
        Start::Leaf(leaf) => make_leaf(heap, leaf),
        Start::Doubles(all) => Ok(MadeLiteral::Whole(add_doubles(heap, all)?)),
        Start::Opening(opening) => make_block(heap, opening, parts, t),
    }
}

/// Returns the part for the value that was made, and records the part's label. If no value was
/// made, returns the fault.
#[inline(always)]
fn placed<'a>(
    text: &LiteralText,
    labels: &mut Vec<u64>,
    node: &LiteralNode,
    t: usize,
    made: MadeLiteral<'a>,
) -> Result<PartStart<'a>, LiteralFault>
    requires { node.now.first < 2 ^ 63 }
    ensures { (k : ℕ) (l : Option ℕ) (p : Plain) (graph new : List Obj)
        → node.now ≡ own_node k (labelled l p) → is_next labels.old.items l ≡ true
        → All (λ o. o < length graph) labels.old.items
        → IsMade node.now.parts
        (start_at t (shape_in text.now.table.now t) (names_in text.now.table.now t) p) graph
        new made.entry
        → Begins text.now k (labelled l p) t graph new labels.old.items labels.new.items result }
{
    match made {
        MadeLiteral::Mismatch => Err(LiteralFault::Mismatch(
            byte_of(text.lexemes, text.end, plain_first(node)),
            t,
        )),
        MadeLiteral::OutOfRange => Err(LiteralFault::IntRange(byte_of(
            text.lexemes,
            text.end,
            plain_first(node),
        ))),
        MadeLiteral::Small(_) if node.label.is_some() => Err(LiteralFault::Label(byte_of(
            text.lexemes,
            text.end,
            node.first,
        ))),
        MadeLiteral::Small(value) => Ok(PartStart { value, inner: None }),
        MadeLiteral::Whole(o) => {
            let value = reference(labels, node.label, o)?;
            Ok(PartStart { value, inner: None })
        }
        MadeLiteral::Block(opened) => {
            let value = reference(labels, node.label, opened.block)?;
            Ok(PartStart {
                value,
                inner: Some(opened),
            })
        }
    }
}

/// Makes the literal at node `j` at type `t`. The argument `node` is the node `j`, and `kind` is
/// the kind of the first lexeme after the label.
#[inline(always)]
fn make_plain<'a>(
    alloc: Global,
    text: &LiteralText<'a>,
    heap: &mut Heap,
    j: usize,
    node: LiteralNode,
    kind: &LexemeKind,
    t: usize,
) -> Result<MadeLiteral<'a>, Memory>
    requires text { IsText text.now }
    requires node { j < length text.now.nodes.now }
    ensures made { (k : ℕ) (l : Option ℕ) (p : Plain)
        → Stands text.now.nodes.now text.now.lexemes.now j k (labelled l p)
        → node ≡ own_node k (labelled l p) → kind.now ≡ lead_of_plain p
        → IfOk result
        (IsMade node.parts
        (start_at t (shape_in text.now.table.now t) (names_in text.now.table.now t) p) heap.old
        heap.new) }
    ensures grows { Grows heap.old heap.new }
{
    if node.parts == 0 {
        make_leaf(heap, leaf_at(text.table, kind, t))
    } else {
        let start = start_of(alloc, text, j, node, kind, t)?;
        make(heap, start, node.parts, t)
    }
}

/// Begins to read the literal at node `j` at type `t`.
#[inline(always)]
pub fn begin<'a>(
    alloc: Global,
    text: &LiteralText<'a>,
    heap: &mut Heap,
    labels: &mut Vec<u64>,
    j: usize,
    t: usize,
) -> Result<PartStart<'a>, LiteralFault>
    requires text { IsText text.now }
    requires part { HasPart text.now j }
    ensures begins { (k : ℕ) (v : Literal) → Stands text.now.nodes.now text.now.lexemes.now j k v
        → All (λ o. o < length heap.old) labels.old.items
        → Begins text.now k v t heap.old heap.new labels.old.items labels.new.items result }
    ensures grows { Grows heap.old heap.new }
{
    let node = text.nodes.get(j);
    if let NodeForm::Again = node.form {
        return again(text, labels, &node);
    }
    if !has_next_number(labels, node.label) {
        return Err(LiteralFault::Label(byte_of(text.lexemes, text.end, node.first)));
    }
    let Some(kind) = text.lexemes.kind(alloc, plain_first(&node))? else {
        return Err(LiteralFault::Memory);
    };
    let made = make_plain(alloc, text, heap, j, node, &kind, t)?;
    placed(text, labels, &node, t, made)
}
