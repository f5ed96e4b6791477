//! Checks a marshalled value against a type while the value's bytes are read, without building a
//! heap. If the value has a single type mismatch, finds the mismatch.
//!
//! - `theory`: The theorem that the checker relies on.
//! - `mismatch_theory`: The theorem that a single mismatch found from tokens is the least fault.
//! - `checker`: The streaming checker (`Passing`, and `pass` for bytes that are all present).
//! - `truncated`: The end of a chunk inside a token (`truncated_len`), and the theorem that the
//!   bytes before the end are a prefix of a value.
//! - `mismatch_search`: The search for the one mismatch (`Seeking`). The result `Found` has the
//!   links that lead to the mismatch, the expected type, and a summary of the mismatched token.
//! - `chunk_check`: The streaming check of a value whose bytes arrive in chunks (`StreamCheck`).
//!
//! The checker keeps the open fields, the types of the objects so far, and the words that the
//! header still allows. If a token is truncated, the checker continues when more bytes are present.
//!
//! Promises: If `pass` returns a length, the first bytes of this length are a value of the table's
//! first type. If `pass` returns `None`, nothing is known. `passes_type_prefixes`: If the checker
//! passed bytes up to the end of a value, the bytes begin with a value of the type. The law also
//! covers flat blocks that were met at a second type. If `StreamCheck::feed` returns `Typed`, the
//! bytes complete a value that has the type. If `StreamCheck::feed` returns `Missed`, the bytes
//! complete a value whose least fault is the mismatch that `missed` returns. If `StreamCheck::feed`
//! returns `More`, the whole chunk was consumed, and the bytes so far are a prefix of a value. If
//! `StreamCheck::feed` returns `Inconclusive`, nothing of the chunk was consumed, and nothing is
//! known. `only_missed_is_least`: Suppose that all tokens of a value but one match their types. If
//! no reference leads back to a block on the path to the mismatched token, the mismatch is the
//! least fault. `missed_has_line` and `found_has_line`: The mismatch that was found determines the
//! line that `check` prints.
//!
//! Leaves out: aliasing conflicts, values with several mismatches, and everything inconclusive
//! (`check_heap`), and printing the mismatch (`check_fault`). No contract promises that a value
//! with the type is recognized, or that a single mismatch is found.
#![tactic(auto)]

pub mod checker;
pub mod chunk_check;
pub mod mismatch_search;
pub mod mismatch_theory;
pub mod theory;
pub mod truncated;
