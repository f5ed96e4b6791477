//! Tests of values with more than 2^16 parts, whose bytes no stored question contains. The checker
//! stores the index of a part beyond 2^16 in more bytes.

ghost use Rattle.std.specs.Prelude.{◌<◌, length};
ghost use Rattle.base_data.specs.model.Graph.{IsValue};

use crate::value_tests::value_tables::{table_in, value_of};
use base_data::model::Memory;
use base_data::model::path::Path;
use check_heap::check::{Steps, Verdict, check};
use marshal_read::Value;
use std::alloc::{AllocError, Global};
use std::test::Fail;
use types_spec::types::fault::Fault;
use types_table::type_table::TypeTable;

// An array of 65,537 lists. All lists are empty except the last list, which has one string.
const PREFIX: &[u8] =
    b"\x84\x95\xa6\xbe\0\x01\0\x09\0\0\0\x03\0\x01\0\x07\0\x01\0\x07\x08\x04\0\x04\0";

const LAST: &[u8] = b"\xa0\x21a\x40";

fn far_list(alloc: Global) -> Result<Vec<u8>, AllocError> {
    let mut bytes = Vec::from_slice(alloc, PREFIX)?;
    for _ in 0..65_536 {
        bytes.push(0x40)?;
    }
    bytes.extend_from_slice(LAST)?;
    Ok(bytes)
}

// Returns true if a path has this text.
fn is_path(alloc: Global, path: &Path, want: &[u8]) -> Result<bool, Memory> {
    let text = path.text(alloc)?;
    Ok(text.as_slice() == want)
}

// If no mismatch is expected, returns true if a value has the type with this number of pairs.
// Otherwise returns true if its mismatch is at the expected path.
fn is_checked(
    alloc: Global,
    table: &TypeTable,
    value: &Value,
    pairs: usize,
    mismatch: &[u8],
) -> Result<bool, Memory>
    requires value { IsValue (length value.now.heap) value.now.root }
{
    let mut steps = Steps::new();
    match check(alloc, &value.heap, value.root, table, &mut steps)? {
        Verdict::Yes(typing) => Ok(mismatch.is_empty() && typing.len() == pairs),
        Verdict::No(Fault::Mismatch(path)) => is_path(alloc, &path, mismatch),
        Verdict::No(Fault::Conflict(_, _)) => Ok(false),
    }
}

// Tests the array whose last list is not empty, at the type of a text, with `is_checked`.
fn is_far_checked(
    alloc: Global,
    text: &[u8],
    pairs: usize,
    mismatch: &[u8],
) -> Result<bool, Memory> {
    let bytes = far_list(alloc)?;
    let Some(value) = value_of(alloc, 100_000, bytes.as_slice())? else {
        return Ok(false);
    };
    match table_in(alloc, b"", text)? {
        Some(table) => is_checked(alloc, &table, &value, pairs, mismatch),
        None => Ok(false),
    }
}

// The array, the list and the string occur at one type each. The expected results were worked out
// by hand.
#[test]
fn far_parts_are_checked(rt: HostRuntime) -> Result<(), Fail> {
    assert!(rt; is_far_checked(rt.alloc(), b"string list array", 3, b"")?);
    assert!(rt; is_far_checked(rt.alloc(), b"int list array", 0, b".65536.0")?);
    assert!(rt; is_far_checked(rt.alloc(), b"int list list", 0, b".")?);
    Ok(())
}
