//! The streaming check: checks values as their bytes arrive in chunks, without building a heap.
//! `StreamCheck::feed` reports whether a value has the table's first type, has exactly one
//! mismatch, or needs more bytes. If `StreamCheck::feed` reports none of these results, the check
//! is inconclusive. If a value needs more bytes, the bytes so far are a prefix of a value
//! (`passing_is_prefix`, `passing_but_is_prefix`).

mod laws;
mod stream_check;
mod value_inspection;

pub use laws::{passing_but_is_prefix, passing_is_prefix};
pub use stream_check::{ChunkResult, StreamCheck};
