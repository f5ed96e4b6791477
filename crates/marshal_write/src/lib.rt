//! Writes values in the bytes that OCaml's runtime writes, and copies values between heaps.
//!
//! - `write`: The writer (`write`) and the writer for readers on 32 bits (`write32`, flag
//!   `Compat_32` of `extern.c`). The module also computes the header of a value (`head_of`) and the
//!   order of a value's objects (`Numbers`).
//! - `canonical_check`: Decides from the bytes alone whether the bytes are canonical
//!   (`is_canonical_bytes`).
//! - `graft`: Appends a copy of a value of another heap (`append_copy`).
//!
//! The crate promises:
//! - `write` writes the canonical bytes of the one tree whose value is isomorphic to the given
//!   value. If memory runs out, `write` has written nothing.
//! - `write32` writes the same bytes as `write`, or writes nothing and reports the first item that
//!   is too large for a reader on 32 bits.
//! - `written_is_read`: Under each limit that the value's words keep, the bytes written encode a
//!   value isomorphic to the given value. The data must have fewer than 2^48 bytes.
//! - `read_is_written`: If canonical bytes are read and the value is written again, then the output
//!   is equal to the input.
//! - `is_canonical_bytes` returns true only for canonical bytes.
//! - `copies_are_the_same`: A copy is isomorphic to the original and consists of new objects only.
//!   A value has exactly one copy after a given number of objects.
//!
//! The crate leaves out the definition of canonical bytes (`marshal_spec`). If `is_canonical_bytes`
//! returns false, nothing is known. After a write error, a part of the bytes may have been written.
#![tactic(auto)]

pub mod canonical_check;
pub mod graft;
pub mod write;
