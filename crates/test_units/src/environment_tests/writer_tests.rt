//! Tests of sizes that do not fit a 32-bit machine, and of a sink that fails while a value is
//! written for a 32-bit machine. `test_conformance` tests values that OCaml wrote, the integers at
//! the bounds of 31 and 32 bits, and failing sinks.

use base_data::model::Memory;
use base_data::model::value::Val;
use base_io::MemSink;
use marshal_heap::heap::Heap;
use marshal_write::write::{Compat, Write32Error, write32};
use std::alloc::Global;
use std::test::Fail;

/// An object with many fields, bytes or doubles.
#[derive(Clone, Copy)]
enum Large {
    Block,
    Bytes,
    Doubles,
}

// Appends a large object. The object has one field, byte or double more than `extern.c` allows on
// 32 bits.
fn add_large(heap: &mut Heap, large: Large) -> Result<u64, Memory> {
    match large {
        Large::Block => heap.add_block(0, 0x40_0000),
        Large::Bytes => heap.add_bytes(0xff_fffc),
        Large::Doubles => heap.add_doubles(0x20_0000),
    }
}

// Returns the error of writing a value for 32 bits, if the value is too large.
fn known(written: Result<(), Write32Error>) -> Result<(char, u64), Memory> {
    match written {
        Err(Write32Error::Memory) => Err(Memory),
        Err(Write32Error::Compat(Compat::Block(size))) => Ok(('b', size)),
        Err(Write32Error::Compat(Compat::Bytes(size))) => Ok(('s', size)),
        Err(Write32Error::Compat(Compat::Doubles(size))) => Ok(('d', size)),
        Err(Write32Error::Fault) => Ok(('f', 0)),
        _ => Ok((' ', 0)),
    }
}

// Writes a large object for 32 bits to a sink with room for 100 bytes. Returns the error, and the
// number of bytes that the sink received.
fn written32(alloc: Global, large: Large) -> Result<(char, u64, usize), Memory> {
    let mut heap = Heap::new(alloc);
    let object = add_large(&mut heap, large)?;
    let mut sink = MemSink::new(alloc, 100, Vec::new(alloc))?;
    if object >= heap.count() {
        return Ok((' ', 0, 0));
    }
    let (why, size) = known(write32(alloc, &heap, Val::Ref(object), &mut sink))?;
    Ok((why, size, sink.written().len()))
}

// Writes an integer for 32 bits to a sink with room for the header only. Returns the error, and the
// number of failed calls of the sink.
fn known_of_full(alloc: Global) -> Result<(char, u64, u64), Memory> {
    let mut full = MemSink::new(alloc, 20, Vec::new(alloc))?;
    let written = write32(alloc, &Heap::new(alloc), Val::Int(1), &mut full);
    match known(written) {
        Ok((why, size)) => Ok((why, size, full.faults())),
        Err(Memory) => Err(Memory),
    }
}

// The expected results were worked out by hand.
#[test]
fn what_cannot_be_written_for_32_bits_is_known(rt: HostRuntime) -> Result<(), Fail> {
    assert!(rt; written32(rt.alloc(), Large::Block)? == ('b', 0x40_0000, 0));
    assert!(rt; written32(rt.alloc(), Large::Bytes)? == ('s', 0xff_fffc, 0));
    assert!(rt; written32(rt.alloc(), Large::Doubles)? == ('d', 0x20_0000, 0));
    assert!(rt; known_of_full(rt.alloc())? == ('f', 0, 1));
    Ok(())
}
