//! The beginning of a part of a text, parsed at the part's type.

use crate::guess::guess_scanners::{after, double, integer, name_len, plain_len, prefix, string};
use crate::guess::guessed_block::GuessedBlock;
use base_data::model::Memory;
use base_data::model::list::List;
use base_data::model::value::Val;
use marshal_heap::heap::Heap;
use std::alloc::Global;
use types_spec::types::names::{ConstrNames, Names};
use types_spec::types::shape::{Constr, ShapeOf};
use types_table::type_table::TypeTable;

/// A value, with the rest of the text after the value's beginning. If the value is a block with
/// parts to come, also the block.
#[derive(Clone, Copy)]
pub struct GuessStart<'a, 't> {
    pub value: Val,
    pub inner: Option<GuessedBlock<'a>>,
    pub rest: &'t [u8],
}

/// Returns the start of a value without parts.
#[inline(always)]
fn whole<'a, 't>(value: Val, rest: &'t [u8]) -> Option<GuessStart<'a, 't>> {
    Some(GuessStart {
        value,
        inner: None,
        rest,
    })
}

/// Parses an integer.
#[inline(always)]
fn begin_integer<'a, 't>(text: &'t [u8]) -> Option<GuessStart<'a, 't>> {
    let (z, rest) = integer(text);
    whole(Val::Int(z), rest)
}

/// Parses `()`, `false` or `true`.
fn begin_below<'a, 't>(many: u64, text: &'t [u8]) -> Option<GuessStart<'a, 't>> {
    if many == 1 {
        return whole(Val::Int(0), after(text, 2));
    }
    if many != 2 {
        return None;
    }
    match text {
        [b't', ..] => whole(Val::Int(1), after(text, 4)),
        _ => whole(Val::Int(0), after(text, 5)),
    }
}

/// Adds a string of the bytes `bytes` to the heap. Returns `Memory` if the string has 2^56 bytes or
/// more.
#[inline(always)]
fn add_string(heap: &mut Heap, bytes: &[u8]) -> Result<Val, Memory> {
    if bytes.len() >= 1 << 56 {
        return Err(Memory);
    }
    Ok(Val::Ref(heap.add_bytes_of(bytes)?))
}

/// Parses a string with escapes.
fn begin_escaped<'a, 't>(
    alloc: Global,
    heap: &mut Heap,
    text: &'t [u8],
) -> Result<Option<GuessStart<'a, 't>>, Memory> {
    let Some((bytes, rest)) = string(alloc, text)? else {
        return Ok(None);
    };
    let value = add_string(heap, bytes.as_slice())?;
    Ok(whole(value, rest))
}

/// Parses a string whose opening quote is right before `text`.
#[inline(always)]
fn begin_string<'a, 't>(
    alloc: Global,
    heap: &mut Heap,
    text: &'t [u8],
) -> Result<Option<GuessStart<'a, 't>>, Memory> {
    let count = plain_len(text);
    match after(text, count) {
        [b'"', rest @ ..] => {
            let value = add_string(heap, prefix(text, count))?;
            Ok(whole(value, rest))
        }
        _ => begin_escaped(alloc, heap, text),
    }
}

/// Parses a double whose `$` is right before `text`.
#[inline(always)]
fn begin_double<'a, 't>(
    heap: &mut Heap,
    text: &'t [u8],
) -> Result<Option<GuessStart<'a, 't>>, Memory> {
    let (bits, rest) = double(text);
    let value = Val::Ref(heap.add_double(bits)?);
    Ok(whole(value, rest))
}

/// Adds a block to the heap, before its first part is parsed.
#[inline(always)]
fn begin_block<'a, 't>(
    heap: &mut Heap,
    tag: usize,
    types: &'a [usize],
    fields: &'a [List<u8>],
    rest: &'t [u8],
) -> Result<Option<GuessStart<'a, 't>>, Memory> {
    if tag > 243 || types.is_empty() || types.len() >= 1 << 53 {
        return Ok(None);
    }
    let block = heap.add_block(tag as u8, types.len() as u64)?;
    Ok(Some(GuessStart {
        value: Val::Ref(block),
        inner: Some(GuessedBlock {
            block,
            next: 0,
            types,
            fields,
            ends: 1,
        }),
        rest,
    }))
}

/// Returns true if the constructor has the name `name`. If `plain` is true, the constructor must
/// have no field names. If `plain` is false, the constructor must have some.
#[inline(always)]
fn is_named(constr: &ConstrNames, name: &[u8], plain: bool) -> bool {
    constr.name.as_slice() == name && constr.fields.as_slice().is_empty() == plain
}

/// Parses a constructor with arguments, whose name is right before `text`.
#[inline(always)]
fn begin_carrying<'a, 't>(
    heap: &mut Heap,
    names: &'a Names,
    blocks: &'a [Constr<usize>],
    name: &[u8],
    plain: bool,
    text: &'t [u8],
) -> Result<Option<GuessStart<'a, 't>>, Memory> {
    let all = names.constructors.as_slice();
    let Some(tag) = all.iter().position(|constr| is_named(constr, name, plain)) else {
        return Ok(None);
    };
    if tag >= blocks.len() || tag >= all.len() {
        return Ok(None);
    }
    let types = blocks[tag].fields.as_slice();
    begin_block(heap, tag, types, all[tag].fields.as_slice(), after(text, 1))
}

/// Parses a constructor without arguments.
#[inline(always)]
fn begin_constant<'a, 't>(
    names: &Names,
    name: &[u8],
    rest: &'t [u8],
) -> Option<GuessStart<'a, 't>> {
    let index = names
        .constants
        .as_slice()
        .iter()
        .position(|other| other.as_slice() == name);
    match index {
        Some(i) if i < 1 << 62 => whole(Val::Int(i as i64), rest),
        _ => None,
    }
}

/// Parses a constructor.
#[inline(always)]
fn begin_constructor<'a, 't>(
    heap: &mut Heap,
    names: &'a Names,
    blocks: &'a [Constr<usize>],
    text: &'t [u8],
) -> Result<Option<GuessStart<'a, 't>>, Memory> {
    let count = name_len(text);
    let name = prefix(text, count);
    let rest = after(text, count);
    match rest {
        [b'(', ..] => begin_carrying(heap, names, blocks, name, true, rest),
        [b'{', ..] => begin_carrying(heap, names, blocks, name, false, rest),
        _ => Ok(begin_constant(names, name, rest)),
    }
}

/// Parses the beginning of a part at the type with the given number.
#[inline(always)]
pub fn begin<'a, 't>(
    alloc: Global,
    heap: &mut Heap,
    table: &'a TypeTable,
    t: usize,
    text: &'t [u8],
) -> Result<Option<GuessStart<'a, 't>>, Memory> {
    if t >= table.count() {
        return Ok(None);
    }
    let names = table.names(t);
    match table.shape(t) {
        ShapeOf::AnyInt => Ok(begin_integer(text)),
        ShapeOf::Below(many) => Ok(begin_below(*many, text)),
        ShapeOf::Bytes(_) => begin_string(alloc, heap, after(text, 1)),
        ShapeOf::Double => begin_double(heap, after(text, 1)),
        ShapeOf::Sum(_, blocks) => begin_constructor(heap, names, blocks.as_slice(), text),
        ShapeOf::Product(_, types) => begin_block(
            heap,
            0,
            types.as_slice(),
            names.fields.as_slice(),
            after(text, 1),
        ),
        _ => Ok(None),
    }
}
