//! Tests of the hashes of tags, as OCaml computes them.

use types_spec::tag_hash::hash;

// Tags, with the numbers that OCaml 4.13.1 stores for them. No tag is empty, but each byte string
// has a hash.
static TAGS: [(&[u8], i64); 16] = [
    (b"A", 65),
    (b"B", 66),
    (b"z", 122),
    (b"On", 17727),
    (b"_x", 21305),
    (b"zz", 27328),
    (b"Off", 3951439),
    (b"Zero", 1003109192),
    (b"some", -866639116),
    (b"None", 870530776),
    (b"abcde", 451978339),
    (b"azdwbie", -332323982),
    (b"c7diagq", -332323982),
    (b"Abcdefghijklmnopqrstuvwxyz0123456789", -853989422),
    (b"", 0),
    (&[255, 0], 56865),
];

#[test]
fn hashes_of_a_real_ocaml(rt: HostRuntime) {
    for (tag, want) in &TAGS {
        assert!(rt; hash(tag) == *want);
    }
}
