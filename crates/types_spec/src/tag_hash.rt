//! Computes the integers that represent the tags of polymorphic variants. The contract of `hash`
//! states that the result equals `tag_hash`, the definition of OCaml's `caml_hash_variant`.

mod hashing;

pub use hashing::hash;
