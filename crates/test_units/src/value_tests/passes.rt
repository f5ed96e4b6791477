//! Tests of the streaming check on bytes in one chunk or in two chunks. The streaming check decides
//! whether the bytes begin with a value of a type.

ghost use Rattle.types_table.specs.type_table.Made.{table_of};
ghost use Rattle.check_stream.specs.chunk_check.StreamCheck.{IsStreamCheck};

use crate::value_tests::value_tables::{LIST, table_in};
use base_data::model::Memory;
use check_stream::checker::pass;
use check_stream::chunk_check::{ChunkResult, StreamCheck};
use std::alloc::Global;
use std::test::Fail;
use types_table::type_table::TypeTable;

// Returns the number of bytes that one streaming check accepts at a type.
fn inspected(
    alloc: Global,
    file: &[u8],
    text: &[u8],
    bytes: &[u8],
) -> Result<Option<usize>, Memory> {
    match table_in(alloc, file, text)? {
        Some(table) => pass(alloc, &table, bytes, 1000),
        None => Ok(None),
    }
}

// The declaration of maps from strings, as in OCaml's library.
const MAPS: &[u8] =
    b"type 'a map = Empty | Node of {l: 'a map; v: string; d: 'a; r: 'a map; h: int}";

// OCaml's encoding of a map from one to four by their names.
const MAP: &[u8] =
    b"\x84\x95\xa6\xbe\0\0\0\x24\0\0\0\x08\0\0\0\x22\0\0\0\x20\xd0\xd0\x40\x24four\x44\x40\x41\x23\
    one\x41\xd0\xd0\x40\x25three\x43\x40\x41\x23two\x42\x40\x42\x43";

// Encodings of six values:
//
// - `"ab"`,
// - 1000000,
// - -1000000,
// - the empty array,
// - a pair with one `"ab"` twice,
// - a pair with one record of 1 and 2 twice.
const TEXT: &[u8] = b"\x84\x95\xa6\xbe\0\0\0\x03\0\0\0\x01\0\0\0\x02\0\0\0\x02\x22ab";

const LARGE: &[u8] = b"\x84\x95\xa6\xbe\0\0\0\x05\0\0\0\0\0\0\0\0\0\0\0\0\x02\0\x0f\x42\x40";

const NEGATIVE: &[u8] = b"\x84\x95\xa6\xbe\0\0\0\x05\0\0\0\0\0\0\0\0\0\0\0\0\x02\xff\xf0\xbd\xc0";

const NOTHING: &[u8] = b"\x84\x95\xa6\xbe\0\0\0\x01\0\0\0\0\0\0\0\0\0\0\0\0\x80";

const TEXTS: &[u8] = b"\x84\x95\xa6\xbe\0\0\0\x06\0\0\0\x02\0\0\0\x05\0\0\0\x05\xa0\x22ab\x04\x01";

const RECORDS: &[u8] =
    b"\x84\x95\xa6\xbe\0\0\0\x06\0\0\0\x02\0\0\0\x06\0\0\0\x06\xa0\xa0\x41\x42\x04\x01";

// The encoding of a triple: `"ab"`, and twice one record of 1, that `"ab"` and the empty array.
const MIXED: &[u8] =
    b"\x84\x95\xa6\xbe\0\0\0\x0b\0\0\0\x03\0\0\0\x0a\0\0\0\x0a\xb0\x22ab\xb0\x41\x04\x02\x80\x04\
    \x01";

// OCaml 4.13.1's encodings of 1.5, [|1.; 2.; 3.|], 0x12345678l, 0x123456789abcdef0L, 1n and `Blue
// 3.
const DOUBLE: &[u8] =
    b"\x84\x95\xa6\xbe\0\0\0\x09\0\0\0\x01\0\0\0\x03\0\0\0\x02\x0c\0\0\0\0\0\0\xf8\x3f";

const DOUBLES: &[u8] =
    b"\x84\x95\xa6\xbe\0\0\0\x1a\0\0\0\x01\0\0\0\x07\0\0\0\x04\x0e\x03\0\0\0\0\0\0\xf0\x3f\0\0\0\0\
    \0\0\0\x40\0\0\0\0\0\0\x08\x40";

const INT32: &[u8] =
    b"\x84\x95\xa6\xbe\0\0\0\x08\0\0\0\x01\0\0\0\x03\0\0\0\x03\x19_i\0\x12\x34\x56x";

const INT64: &[u8] =
    b"\x84\x95\xa6\xbe\0\0\0\x0c\0\0\0\x01\0\0\0\x04\0\0\0\x03\x19_j\0\x12\x34\x56x\x9a\xbc\xde\
    \xf0";

const NATIVE: &[u8] =
    b"\x84\x95\xa6\xbe\0\0\0\x09\0\0\0\x01\0\0\0\x03\0\0\0\x03\x19_n\0\x01\0\0\0\x01";

const BLUE: &[u8] =
    b"\x84\x95\xa6\xbe\0\0\0\x07\0\0\0\x01\0\0\0\x03\0\0\0\x03\xa0\x02\x2b\xf2\x6e\xba\x43";

// FILE, TYPE and bytes. If one streaming check shows that the value has the type, the last part is
// the length of the value in bytes. A record that occurs at two types is accepted if it is mutable
// at neither type.
static INSPECTS: [(&[u8], &[u8], &[u8], Option<usize>); 27] = [
    (b"", b"int list", LIST, Some(25)),
    (b"", b"bool list", LIST, None),
    (b"", b"string", TEXT, Some(23)),
    (b"", b"int", TEXT, None),
    (b"", b"int", LARGE, Some(25)),
    (b"", b"int", NEGATIVE, Some(25)),
    (b"", b"char", LARGE, None),
    (b"", b"int array", NOTHING, Some(21)),
    (b"", b"int list", NOTHING, None),
    (b"", b"float", DOUBLE, Some(29)),
    (b"", b"int32", DOUBLE, None),
    (b"", b"float array", DOUBLES, Some(46)),
    (b"", b"int array", DOUBLES, None),
    (b"", b"int32", INT32, Some(28)),
    (b"", b"int64", INT32, None),
    (b"", b"int64", INT64, Some(32)),
    (b"", b"nativeint", NATIVE, Some(29)),
    (b"", b"int32", NATIVE, None),
    (b"", b"[ `Red | `Blue of int ]", BLUE, Some(27)),
    (b"", b"[ `Red of int | `Blue ]", BLUE, None),
    (b"", b"string * string", TEXTS, Some(26)),
    (MAPS, b"int map", MAP, Some(56)),
    (MAPS, b"string map", MAP, None),
    (
        b"type t = {a: int; b: int} type u = {c: int; d: int}",
        b"t * u",
        RECORDS,
        Some(26),
    ),
    (
        b"type t = {a: int; b: int} type u = {c: int; mutable d: int}",
        b"t * u",
        RECORDS,
        None,
    ),
    (
        b"type t = {a: int; b: string; c: int array} type u = {d: int; e: string; f: int array}",
        b"string * t * u",
        MIXED,
        Some(31),
    ),
    (
        b"type t = {a: int; b: string; c: int array} type u = {d: int; e: t; f: int array}",
        b"string * t * u",
        MIXED,
        None,
    ),
];

// Returns how many bytes of the first chunk are kept, and how many bytes of the second chunk end
// the value. Also returns whether the value has the type or one mismatch. Neither chunk may contain
// the whole value.
fn inspected_on<'a>(
    alloc: Global,
    table: &'a TypeTable,
    stream_check: &mut StreamCheck<'a>,
    first: &[u8],
    second: &[u8],
) -> Result<Option<(usize, usize, bool)>, Memory>
    requires stream_check { IsStreamCheck (table_of table.now) 1000 stream_check.old }
{
    let ChunkResult::More = stream_check.feed(alloc, table, 1000, first)? else {
        return Ok(None);
    };
    let kept = stream_check.kept().len();
    match stream_check.feed(alloc, table, 1000, second)? {
        ChunkResult::Typed(n) => Ok(Some((kept, n, true))),
        ChunkResult::Missed(n) => Ok(Some((kept, n, false))),
        ChunkResult::More | ChunkResult::Inconclusive => Ok(None),
    }
}

// Returns the result of `inspected_on` for a streaming check that begins with the first chunk.
fn inspected_in_two(
    alloc: Global,
    table: &TypeTable,
    first: &[u8],
    second: &[u8],
) -> Result<Option<(usize, usize, bool)>, Memory> {
    let mut stream_check = StreamCheck::new(alloc);
    inspected_on(alloc, table, &mut stream_check, first, second)
}

// Returns the result of `inspected_on` for a streaming check that has already read values with one
// mismatch each. After eight of these values, the streaming check searches a value for its mismatch
// before it checks the value.
fn inspected_after_mismatches(
    alloc: Global,
    table: &TypeTable,
    first: &[u8],
    second: &[u8],
) -> Result<Option<(usize, usize, bool)>, Memory> {
    let mut stream_check = StreamCheck::new(alloc);
    'mismatches: for _ in 0..9 {
        let ChunkResult::Missed(_) = stream_check.feed(alloc, table, 1000, DOUBLE)? else {
            return Ok(None);
        };
    }
    inspected_on(alloc, table, &mut stream_check, first, second)
}

// Returns true if `inspected_in_two` and `inspected_after_mismatches` give this result at the type
// of a text.
fn are_inspected_in_two(
    alloc: Global,
    text: &[u8],
    first: &[u8],
    second: &[u8],
    want: Option<(usize, usize, bool)>,
) -> Result<bool, Memory> {
    let Some(table) = table_in(alloc, b"", text)? else {
        return Ok(false);
    };
    let fresh = inspected_in_two(alloc, &table, first, second)?;
    let after = inspected_after_mismatches(alloc, &table, first, second)?;
    Ok(fresh == want && after == want)
}

// TYPE, two chunks, and the result. The cases are:
//
// - a string split in its bytes,
// - a string split in its header,
// - a list split between two tokens,
// - a string at another type,
// - a list with one string instead of an integer,
// - a list with two strings.
static INSPECTS_IN_TWO: [(&[u8], &[u8], &[u8], Option<(usize, usize, bool)>); 6] = [
    (
        b"string",
        b"\x84\x95\xa6\xbe\0\0\0\x03\0\0\0\x01\0\0\0\x02\0\0\0\x02\x22a",
        b"b",
        Some((22, 1, true)),
    ),
    (
        b"string",
        b"\x84\x95\xa6\xbe\0\0\0",
        b"\x03\0\0\0\x01\0\0\0\x02\0\0\0\x02\x22ab",
        Some((7, 16, true)),
    ),
    (
        b"int list",
        b"\x84\x95\xa6\xbe\0\0\0\x05\0\0\0\x02\0\0\0\x06\0\0\0\x06\xa0\x41",
        b"\xa0\x42\x40",
        Some((22, 3, true)),
    ),
    (
        b"int",
        b"\x84\x95\xa6\xbe\0\0\0\x03\0\0\0\x01\0\0\0\x02\0\0\0\x02\x22a",
        b"b",
        Some((22, 1, false)),
    ),
    (
        b"int list",
        b"\x84\x95\xa6\xbe\0\0\0\x06\0\0\0\x03\0\0\0\x08\0\0\0\x08\xa0\x41",
        b"\xa0\x21a\x40",
        Some((22, 4, false)),
    ),
    (
        b"int list",
        b"\x84\x95\xa6\xbe\0\0\0\x07\0\0\0\x04\0\0\0\x0a\0\0\0\x0a\xa0\x21a",
        b"\xa0\x21b\x40",
        None,
    ),
];

#[test]
fn values_are_typed_by_inspects(rt: HostRuntime) -> Result<(), Fail> {
    for (file, text, bytes, want) in &INSPECTS {
        assert!(rt; inspected(rt.alloc(), file, text, bytes)? == *want);
    }
    for (text, first, second, want) in &INSPECTS_IN_TWO {
        assert!(rt; are_inspected_in_two(rt.alloc(), text, first, second, *want)?);
    }
    Ok(())
}
