//! Tests of headers and of the word counts in them, as OCaml writes them.

use marshal_codec::headers::{Head, HeaderStep, Measure, encode, parse, words_of};

// OCaml's header of a list of two elements.
static SMALL: [u8; 20] = [
    0x84, 0x95, 0xa6, 0xbe, 0, 0, 0, 5, 0, 0, 0, 2, 0, 0, 0, 7, 0, 0, 0, 6,
];

// A big header, written by hand, because no value that fits into a test has a big header.
static BIG: [u8; 32] = [
    0x84, 0x95, 0xa6, 0xbf, 0, 0, 0, 0, 0, 0, 0, 1, 0, 0, 0, 3, 0, 0, 0, 0, 0, 0, 1, 0, 0, 0, 0, 0,
    0, 0, 0, 9,
];

// Returns true if the first `n` of the encoded bytes are `bytes`.
fn is_encoded(encoded: ([u8; 32], usize), bytes: &[u8]) -> bool {
    let (all, n) = encoded;
    n <= all.len() && &all[..n] == bytes
}

// Returns true if the bytes begin with a small header that states these numbers.
fn states(bytes: &[u8], length: u64, objects: u64, w32: u64, w64: u64) -> bool {
    match parse(bytes) {
        Ok(HeaderStep::Head(head)) => {
            !head.big
                && head.length == length
                && head.objects == objects
                && head.w32 == w32
                && head.w64 == w64
        }
        _ => false,
    }
}

// Values, with the word counts in the header that OCaml 4.13 writes for a single value of this
// kind.
static SIZES: [(Measure, (u64, u64)); 8] = [
    (Measure::Block(2), (3, 3)),
    (Measure::Bytes(3), (2, 2)),
    (Measure::Bytes(4), (3, 2)),
    (Measure::Double, (3, 2)),
    (Measure::Doubles(2), (5, 3)),
    (Measure::Custom(4, 4), (3, 3)),
    (Measure::Custom(8, 8), (4, 3)),
    (Measure::Custom(4, 8), (3, 3)),
];

#[test]
fn headers_are_encoded_and_read(rt: HostRuntime) {
    let small = Head {
        big: false,
        length: 5,
        objects: 2,
        w32: 7,
        w64: 6,
    };
    assert!(rt; is_encoded(encode(small), &SMALL));
    assert!(rt; states(&SMALL, 5, 2, 7, 6));
    let big = Head {
        big: true,
        length: 4294967299,
        objects: 256,
        w32: 1,
        w64: 9,
    };
    assert!(rt; is_encoded(encode(big), &BIG));
    for (measure, words) in &SIZES {
        assert!(rt; words_of(*measure) == *words);
    }
}
