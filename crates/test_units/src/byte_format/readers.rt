//! Tests of a reader with deep values, which no stored question contains.

use base_data::model::Memory;
use base_data::model::refusal::ReadRefusal;
use marshal_read::Reader;
use std::alloc::{AllocError, Global};
use std::test::Fail;

// Blocks nested 100,000 deep, and a list of 100,000 cells. Each entry has the numbers of a small
// header, and the tokens that are repeated before an integer.
static DEEP: [([u32; 4], &[u8]); 2] = [
    ([100_001, 100_000, 200_000, 200_000], b"\x90"),
    ([200_001, 100_000, 300_000, 300_000], b"\xa0\x41"),
];

fn deep(alloc: Global, stated: [u32; 4], tokens: &[u8]) -> Result<Vec<u8>, AllocError> {
    let mut bytes = Vec::from_slice(alloc, b"\x84\x95\xa6\xbe")?;
    for number in stated {
        bytes.extend_from_slice(&number.to_be_bytes())?;
    }
    for _ in 0..100_000 {
        bytes.extend_from_slice(tokens)?;
    }
    bytes.push(0x40)?;
    Ok(bytes)
}

// Returns true if a reader takes all bytes and is done.
fn is_read(alloc: Global, bytes: &[u8]) -> Result<bool, Memory> {
    let mut reader = Reader::new(alloc, 300_000);
    match reader.feed(bytes) {
        Ok(fed) => Ok(fed.done && fed.taken == bytes.len()),
        Err(ReadRefusal::Memory) => Err(Memory),
        Err(_) => Ok(false),
    }
}

fn is_deep_read(alloc: Global, stated: [u32; 4], tokens: &[u8]) -> Result<bool, Memory> {
    let bytes = deep(alloc, stated, tokens)?;
    is_read(alloc, bytes.as_slice())
}

#[test]
fn deep_values_are_read(rt: HostRuntime) -> Result<(), Fail> {
    for (stated, tokens) in &DEEP {
        assert!(rt; is_deep_read(rt.alloc(), *stated, tokens)?);
    }
    Ok(())
}
