//! Decides whether the bytes of a value are its canonical bytes, that is, exactly the bytes that
//! OCaml's runtime writes for the value. `is_canonical_bytes` uses the bytes alone and builds no
//! value. The answer true is proved. The answer false is inconclusive.

mod canonical_bytes;
mod canonical_tokens;
mod encoded_prefixes;

pub use canonical_bytes::is_canonical_bytes;
