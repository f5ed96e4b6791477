//! Tests of the decoder of tokens, on bytes that OCaml writes, on parts of these bytes, and on
//! bytes that OCaml never writes.

use base_data::model::code::CustomKind;
use marshal_codec::token::{Summary, TokenFault, TokenStep, decode};

// Returns a letter for the token, the length of the token in bytes, and the numbers of the token's
// summary.
fn token(summary: Summary, n: usize) -> (char, usize, i64, u64) {
    match summary {
        Summary::Integer(number) => ('i', n, number, 0),
        Summary::Atom(tag) => ('a', n, i64::from(tag), 0),
        Summary::Shared(offset) => ('r', n, 0, offset),
        Summary::Block(tag, size) => ('b', n, i64::from(tag), size),
        Summary::Bytes(size) => ('s', n, 0, size),
        Summary::Double => ('d', n, 0, 0),
        Summary::Doubles(count) => ('f', n, 0, count),
        Summary::Custom(CustomKind::Int32) => ('c', n, 0, 4),
        Summary::Custom(CustomKind::Int64) => ('c', n, 0, 8),
        Summary::Custom(CustomKind::Native) => ('n', n, 0, 0),
    }
}

// Returns a letter for what the bytes begin with, and the numbers of that token. The letter is
// uppercase for a fault.
fn known(step: TokenStep) -> (char, usize, i64, u64) {
    match step {
        TokenStep::Token(summary, n) => token(summary, n),
        TokenStep::More => ('m', 0, 0, 0),
        TokenStep::Fault(TokenFault::Code(_)) => ('C', 0, 0, 0),
        TokenStep::Fault(TokenFault::Integer(number)) => ('I', 0, number, 0),
        TokenStep::Fault(TokenFault::Tag(tag)) => ('B', 0, i64::from(tag), 0),
        TokenStep::Fault(TokenFault::Empty) => ('F', 0, 0, 0),
        TokenStep::Fault(TokenFault::Identifier) => ('U', 0, 0, 0),
        TokenStep::Fault(TokenFault::Native(kind)) => ('N', 0, i64::from(kind), 0),
    }
}

// Bytes, some with a byte after the token, and what the bytes begin with.
static TOKENS: [(&[u8], (char, usize, i64, u64)); 28] = [
    (&[0x41, 0xff], ('i', 1, 1, 0)),
    (&[0x00, 0xff], ('i', 2, -1, 0)),
    (&[0x01, 0x80, 0x00, 0xff], ('i', 3, -32768, 0)),
    (&[0x02, 0x7f, 0xff, 0xff, 0xff], ('i', 5, 2147483647, 0)),
    (
        &[0x03, 0xc0, 0, 0, 0, 0, 0, 0, 0],
        ('i', 9, -4611686018427387904, 0),
    ),
    (&[0x80], ('a', 1, 0, 0)),
    (&[0xa1], ('b', 1, 1, 2)),
    (&[0x08, 0, 0, 0x20, 0xf3], ('b', 5, 243, 8)),
    (&[0x08, 0, 0, 0x03, 0x05], ('a', 5, 5, 0)),
    (&[0x04, 0x01], ('r', 2, 0, 1)),
    (&[0x05, 0x01, 0x02], ('r', 3, 0, 258)),
    (&[0x22, 0x61, 0x62, 0xff], ('s', 3, 0, 2)),
    (&[0x09, 0x01, 0x61], ('s', 3, 0, 1)),
    (&[0x0c, 0, 0, 0, 0, 0, 0, 0xf0, 0x3f], ('d', 9, 0, 0)),
    (&[0x0e, 0x01, 0, 0, 0, 0, 0, 0, 0xf0, 0x3f], ('f', 10, 0, 1)),
    (
        &[0x19, 0x5f, 0x69, 0, 0xff, 0xff, 0xff, 0xfe],
        ('c', 8, 0, 4),
    ),
    (
        &[0x19, 0x5f, 0x6a, 0, 0, 0, 0, 0, 0, 0, 0, 5],
        ('c', 12, 0, 8),
    ),
    (&[0x19, 0x5f, 0x6e, 0, 1, 0, 0, 0, 5], ('n', 9, 0, 0)),
    (&[], ('m', 0, 0, 0)),
    (&[0x01, 0x80], ('m', 0, 0, 0)),
    (&[0x22, 0x61], ('m', 0, 0, 0)),
    (&[0x19, 0x5f, 0x6e, 0], ('m', 0, 0, 0)),
    (&[0x1f], ('C', 0, 0, 0)),
    (
        &[0x03, 0x40, 0, 0, 0, 0, 0, 0, 0],
        ('I', 0, 4611686018427387904, 0),
    ),
    (&[0x08, 0, 0, 0x04, 0xf4], ('B', 0, 244, 0)),
    (&[0x0e, 0x00], ('F', 0, 0, 0)),
    (&[0x19, 0x5f, 0x7a, 0], ('U', 0, 0, 0)),
    (&[0x19, 0x5f, 0x6e, 0, 3], ('N', 0, 3, 0)),
];

#[test]
fn tokens_are_decoded(rt: HostRuntime) {
    for (bytes, want) in &TOKENS {
        assert!(rt; known(decode(bytes)) == *want);
    }
}
