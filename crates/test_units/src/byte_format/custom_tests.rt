//! Tests of custom values, as OCaml writes them.

use marshal_codec::customs::{Custom, NativeStep, encode, read_native};

// Custom values, with the bytes that OCaml's `Marshal.to_string` writes after the header.
static CUSTOMS: [(Custom, &[u8]); 4] = [
    (
        Custom::I32(-2),
        &[0x19, 0x5f, 0x69, 0, 0xff, 0xff, 0xff, 0xfe],
    ),
    (
        Custom::I64(5),
        &[0x19, 0x5f, 0x6a, 0, 0, 0, 0, 0, 0, 0, 0, 5],
    ),
    (Custom::Native(5), &[0x19, 0x5f, 0x6e, 0, 1, 0, 0, 0, 5]),
    (
        Custom::Native(2147483648),
        &[0x19, 0x5f, 0x6e, 0, 2, 0, 0, 0, 0, 0x80, 0, 0, 0],
    ),
];

// Returns a letter for the result of reading the data of a `Nativeint`, with the number of missing
// bytes or the kind byte, and the number.
fn known(step: NativeStep) -> (char, usize, i64) {
    match step {
        NativeStep::More(missing) => ('m', missing, 0),
        NativeStep::Value(number) => ('v', 0, number),
        NativeStep::BadNative(kind) => ('b', usize::from(kind), 0),
    }
}

// Data of a `Nativeint`, with the result of reading the data. OCaml's `Marshal.to_string` writes
// the data; some are truncated, and some have a byte after them. OCaml never writes the kind of one
// of them.
static NATIVES: [(&[u8], (char, usize, i64)); 8] = [
    (&[1, 0, 0, 0, 5], ('v', 0, 5)),
    (&[1, 0xff, 0xff, 0xff, 0xfe, 7], ('v', 0, -2)),
    (&[2, 0, 0, 0, 0, 0x80, 0, 0, 0], ('v', 0, 2147483648)),
    (&[2, 0x80, 0, 0, 0, 0, 0, 0, 0], ('v', 0, i64::MIN)),
    (&[], ('m', 1, 0)),
    (&[1, 0, 0, 0], ('m', 1, 0)),
    (&[2], ('m', 8, 0)),
    (&[3, 0, 0, 0, 5], ('b', 3, 0)),
];

#[test]
fn customs_are_encoded_and_read(rt: HostRuntime) {
    for (custom, bytes) in &CUSTOMS {
        let (encoded, n) = encode(*custom);
        assert!(rt; &encoded[..n] == *bytes);
    }
    for (bytes, want) in &NATIVES {
        assert!(rt; known(read_native(bytes)) == *want);
    }
}
