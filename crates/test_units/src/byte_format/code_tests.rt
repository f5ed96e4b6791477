//! Tests of the codes that begin tokens, against the header of the runtime (`intext.h`) and the
//! output of OCaml.

use marshal_codec::codes::{
    CodeFault, CodeKind, code_kind, encode_block, encode_double_array_len, encode_int,
    encode_shared, encode_string_len,
};

// Returns a letter for the kind of a code, and the numbers of the code. The letter is lowercase if
// the code itself contains the number. The number 1 means little endian, or the code of an old
// runtime. If a code begins no token, the letter states what is wrong.
fn known(code: u8) -> (char, u8, u8) {
    match code_kind(code) {
        Ok(CodeKind::SmallBlock(tag, size)) => ('b', tag, size),
        Ok(CodeKind::SmallInt(number)) => ('i', number, 0),
        Ok(CodeKind::SmallString(len)) => ('s', len, 0),
        Ok(CodeKind::Int(width)) => ('I', width, 0),
        Ok(CodeKind::Shared(width)) => ('R', width, 0),
        Ok(CodeKind::Block(width)) => ('B', width, 0),
        Ok(CodeKind::Str(width)) => ('S', width, 0),
        Ok(CodeKind::Double(little)) => ('D', 8, u8::from(little)),
        Ok(CodeKind::Doubles(width, little)) => ('A', width, u8::from(little)),
        Ok(CodeKind::Custom(old)) => ('C', 0, u8::from(old)),
        Err(CodeFault::BadCode) => ('?', 0, 0),
        Err(CodeFault::PointerCode) => ('p', 0, 0),
        Err(CodeFault::CustomLen) => ('c', 0, 0),
    }
}

// Codes, with the kinds that the header of the runtime gives.
static KINDS: [(u8, (char, u8, u8)); 35] = [
    (0x80, ('b', 0, 0)),
    (0xa1, ('b', 1, 2)),
    (0xff, ('b', 15, 7)),
    (0x40, ('i', 0, 0)),
    (0x7f, ('i', 63, 0)),
    (0x20, ('s', 0, 0)),
    (0x3f, ('s', 31, 0)),
    (0x00, ('I', 1, 0)),
    (0x01, ('I', 2, 0)),
    (0x02, ('I', 4, 0)),
    (0x03, ('I', 8, 0)),
    (0x04, ('R', 1, 0)),
    (0x05, ('R', 2, 0)),
    (0x06, ('R', 4, 0)),
    (0x14, ('R', 8, 0)),
    (0x08, ('B', 4, 0)),
    (0x13, ('B', 8, 0)),
    (0x09, ('S', 1, 0)),
    (0x0a, ('S', 4, 0)),
    (0x15, ('S', 8, 0)),
    (0x0b, ('D', 8, 0)),
    (0x0c, ('D', 8, 1)),
    (0x0d, ('A', 1, 0)),
    (0x0f, ('A', 4, 0)),
    (0x16, ('A', 8, 0)),
    (0x0e, ('A', 1, 1)),
    (0x07, ('A', 4, 1)),
    (0x17, ('A', 8, 1)),
    (0x12, ('C', 0, 1)),
    (0x19, ('C', 0, 0)),
    (0x10, ('p', 0, 0)),
    (0x11, ('p', 0, 0)),
    (0x18, ('c', 0, 0)),
    (0x1a, ('?', 0, 0)),
    (0x1f, ('?', 0, 0)),
];

// Integers, with the bytes that OCaml's `Marshal.to_string` writes.
static INTEGERS: [(i64, &[u8]); 12] = [
    (0, &[0x40]),
    (63, &[0x7f]),
    (64, &[0x00, 0x40]),
    (-1, &[0x00, 0xff]),
    (128, &[0x01, 0x00, 0x80]),
    (-128, &[0x00, 0x80]),
    (32768, &[0x02, 0x00, 0x00, 0x80, 0x00]),
    (1073741823, &[0x02, 0x3f, 0xff, 0xff, 0xff]),
    (1073741824, &[0x03, 0, 0, 0, 0, 0x40, 0, 0, 0]),
    (-1073741824, &[0x02, 0xc0, 0, 0, 0]),
    (
        4611686018427387903,
        &[0x03, 0x3f, 0xff, 0xff, 0xff, 0xff, 0xff, 0xff, 0xff],
    ),
    (-4611686018427387904, &[0x03, 0xc0, 0, 0, 0, 0, 0, 0, 0]),
];

// Returns true if the first `n` of the encoded bytes are `bytes`.
fn is_encoded(encoded: ([u8; 9], usize), bytes: &[u8]) -> bool {
    let (all, n) = encoded;
    n <= all.len() && &all[..n] == bytes
}

fn is_integer_encoded(number: i64, bytes: &[u8]) -> bool {
    (-4611686018427387904..4611686018427387904).contains(&number)
        && is_encoded(encode_int(number), bytes)
}

// The expected bytes are those of OCaml's `Marshal.to_string`.
#[test]
fn codes_are_known_and_encoded(rt: HostRuntime) {
    for (code, want) in &KINDS {
        assert!(rt; known(*code) == *want);
    }
    for (number, bytes) in &INTEGERS {
        assert!(rt; is_integer_encoded(*number, bytes));
    }
    assert!(rt; is_encoded(encode_block(0, 2), &[0xa0]));
    assert!(rt; is_encoded(encode_block(1, 8), &[0x08, 0, 0, 0x20, 0x01]));
    assert!(rt; is_encoded(encode_string_len(256), &[0x0a, 0, 0, 1, 0]));
    assert!(rt; is_encoded(encode_double_array_len(2), &[0x0e, 0x02]));
    assert!(rt; is_encoded(encode_shared(1), &[0x04, 0x01]));
}
