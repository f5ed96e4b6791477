//! Reads one marshalled value from bytes that arrive in chunks, and builds the graph of the value.
//!
//! The crate owns `Reader`, which follows the steps of `intern.c`. A `Reader` keeps none of the
//! bytes taken, except a part of a header or token. `Fed` states the bytes taken, and whether the
//! value is complete. `Truncated` means that the input ends inside a value. The results `Value` and
//! `Borrowed` are the root and its heap.
//!
//! The crate promises:
//! - If `Reader::feed` succeeds, the reader has taken a prefix of the chunk. If the value is
//!   complete, the prefix ends with the last byte of the value.
//! - If `Reader::feed` returns a `ReadRefusal`, the bytes taken so far and the chunk have this
//!   refusal by the definitions of `marshal_spec`. The reader keeps the refusal.
//! - `Reader::borrow` and `Reader::finish` return the value that the bytes taken encode.
//! - `Reader::at_end` reports whether the input ends inside a value, and after how many of the
//!   value's bytes.
//! - The limit of `Reader::new` bounds the 64-bit words of the value. `Reader::over` and
//!   `Reader::restart` begin the next value in the memory of the last value.
//!
//! The crate leaves out header and token encodings (`marshal_codec`), the loop over an input with
//! many values (`run_loop`, `session`), and types. `check_heap` checks types, and `check_stream`
//! checks types without a heap. The crate promises neither time nor the size of memory.
#![tactic(auto)]

mod chunks;
mod common;
mod content;
mod decode;
mod graph_builder;
mod judged_header;
mod read_totals;
mod reader;
mod reading;
mod remaining_room;
mod returned_value;
mod token_reader;
mod token_runs;
mod token_sizes;
mod unread;

pub use reader::{Fed, Reader, Truncated};
pub use returned_value::{Borrowed, Value};
