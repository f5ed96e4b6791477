//! Formats results as text, in one format for the reader and for the reference program.

use base_data::model::Memory;
use base_data::model::code::Custom;
use base_data::model::refusal::ReadRefusal;
use base_data::model::value::{Obj, Val};
use marshal_heap::heap::{Kind, NumberedObject};
use marshal_read::Value;
use std::alloc::{AllocError, Global};
use test_oracles::{Graph, Judgement, graph_of, judge};

/// A value, and the number of bytes that encode the value.
#[derive(Drop)]
pub struct Read {
    pub value: Value,
    pub taken: usize,
}

fn push_values(alloc: Global, text: &mut String, values: &[Val]) -> Result<(), AllocError> {
    for value in values {
        text.push_str(format!(in alloc; " {value:?}")?.as_str())?;
    }
    Ok(())
}

fn push_bytes(alloc: Global, text: &mut String, bytes: &[u8]) -> Result<(), AllocError> {
    for byte in bytes {
        text.push_str(format!(in alloc; " {byte:02x}")?.as_str())?;
    }
    Ok(())
}

fn push_doubles(alloc: Global, text: &mut String, all: &[u64]) -> Result<(), AllocError> {
    for bits in all {
        text.push_str(format!(in alloc; " {bits:016x}")?.as_str())?;
    }
    Ok(())
}

// Appends the contents of an object of a heap, after the kind of the object.
fn push_content(
    alloc: Global,
    text: &mut String,
    placed: &NumberedObject<'_>,
) -> Result<(), AllocError> {
    let heap = placed.heap;
    let o = placed.object;
    match heap.kind(o) {
        Kind::Block(_, size) => {
            for i in 0..size {
                push_values(alloc, text, &[heap.field(o, i)])?;
            }
        }
        Kind::Bytes(len) => {
            for i in 0..len {
                push_bytes(alloc, text, &[heap.byte(o, i)])?;
            }
        }
        Kind::Double => push_doubles(alloc, text, &[heap.double(o, 0)])?,
        Kind::Doubles(len) => {
            for i in 0..len {
                push_doubles(alloc, text, &[heap.double(o, i)])?;
            }
        }
        Kind::Custom(_) => {}
    }
    Ok(())
}

/// Returns the root and the objects in order, as text.
pub fn value_text(alloc: Global, value: &Value) -> Result<String, AllocError> {
    let root = value.root;
    let mut text = format!(in alloc; "{root:?}")?;
    for o in 0..value.heap.count() {
        let kind = value.heap.kind(o);
        text.push_str(format!(in alloc; "; {kind:?}")?.as_str())?;
        push_content(
            alloc,
            &mut text,
            &NumberedObject {
                heap: &value.heap,
                object: o,
            },
        )?;
    }
    Ok(text)
}

/// Returns the result of a reader for some bytes as text. If the reader needs more bytes, the text
/// states that there is no value.
pub fn read_text(
    alloc: Global,
    answer: &Result<Option<Read>, ReadRefusal>,
) -> Result<String, AllocError> {
    match answer {
        Ok(Some(read)) => {
            let text = value_text(alloc, &read.value)?;
            format!(in alloc; "{} {text}", read.taken)
        }
        Ok(None) => String::from_str(alloc, "Cut"),
        Err(refusal) => format!(in alloc; "{refusal:?}"),
    }
}

fn kind_of(object: &Obj) -> Kind {
    match object {
        Obj::Block(tag, values) => Kind::Block(*tag, values.len() as u64),
        Obj::Bytes(bytes) => Kind::Bytes(bytes.len() as u64),
        Obj::Double(_) => Kind::Double,
        Obj::Doubles(all) => Kind::Doubles(all.len() as u64),
        Obj::I32(value) => Kind::Custom(Custom::I32(*value)),
        Obj::I64(value) => Kind::Custom(Custom::I64(*value)),
        Obj::Native(value) => Kind::Custom(Custom::Native(*value)),
    }
}

fn push_object(alloc: Global, text: &mut String, object: &Obj) -> Result<(), AllocError> {
    let kind = kind_of(object);
    text.push_str(format!(in alloc; "; {kind:?}")?.as_str())?;
    match object {
        Obj::Block(_, values) => push_values(alloc, text, values.as_slice()),
        Obj::Bytes(bytes) => push_bytes(alloc, text, bytes.as_slice()),
        Obj::Double(bits) => push_doubles(alloc, text, &[*bits]),
        Obj::Doubles(all) => push_doubles(alloc, text, all.as_slice()),
        Obj::I32(_) | Obj::I64(_) | Obj::Native(_) => Ok(()),
    }
}

fn graph_text(alloc: Global, graph: &Graph, taken: usize) -> Result<String, AllocError> {
    let root = graph.root;
    let mut text = format!(in alloc; "{taken} {root:?}")?;
    for object in &graph.objects {
        push_object(alloc, &mut text, object)?;
    }
    Ok(text)
}

/// Returns the result of the reference program as text.
pub fn plain_text(alloc: Global, bytes: &[u8], limit: u64) -> Result<String, Memory> {
    let text = match judge(alloc, limit, bytes)? {
        Judgement::Prefix => String::from_str(alloc, "Cut"),
        Judgement::Value { taken, tokens } => graph_text(alloc, &graph_of(alloc, tokens)?, taken),
        Judgement::Refused { refusal, .. } => match refusal.narrow() {
            Some(refusal) => format!(in alloc; "{refusal:?}"),
            None => format!(in alloc; "{refusal:?}"),
        },
    };
    Ok(text?)
}
