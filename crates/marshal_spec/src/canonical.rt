//! Laws of the canonical bytes, the bytes that OCaml's runtime writes for a value. The canonical
//! bytes of a tree encode that tree (`canon_encodes`). Each value has exactly one tree, up to the
//! numbers of the value's objects (`one_tree`). Isomorphism of values is an equivalence
//! (`same_is_an_equivalence`). The crate has no code that runs.

pub mod laws;
