//! Input, output and files as traits, with implementations in memory and for the operating system.
//!
//! The crate owns the traits `Source` (bytes to read), `Sink` (bytes to write) and `Opener` (files
//! by name). The ghost `state` of a source and of the files contains the history: what each call
//! moved, that a call failed, and that a call found the end. The state of a sink contains the bytes
//! written and the number of calls that failed. `History` is a history that takes no memory.
//! `MemSource`, `MemSink` and `MemFiles` work in memory, know the bytes that remain, and fail at
//! chosen calls. `StdSource`, `StdSink` and `DiskFiles` wrap readers, writers and the file system.
//! The bytes that remain in a reader or in the file system are not known. `MaybeClosed` is a reader
//! that may be closed. `WriteError` and `OpenError` are the errors.
//!
//! Promises: `Source::take` appends the call to the history, with the bytes that the buffer has
//! after the call. `Source::take` moves a prefix of the remaining bytes into the buffer
//! (`TakesPrefix`). `Opener::fetch` appends the name and the result to the history.
//! `Sink::write` appends a prefix of the chunk, at least one byte unless the chunk is empty
//! (`AppendsPrefix`). If `write_all` succeeds, all the bytes were written. If `write_all` fails, a
//! proper prefix of the bytes was written. If there are no bytes, `write_all` makes no call. If
//! `Opener::fetch` succeeds, the bytes of the named file can be read. If `Opener::fetch` fails and
//! the files are known, no bytes can be read. The contract of `Sink` also states how the number of
//! failed calls changes.
//!
//! Leaves out: the loop over an input (`run_loop`) and the exit status of a failed call
//! (`run_spec`). No contract states that the bytes of a history are the bytes of a real file, input
//! or output. Nothing is promised about time, or about the number of bytes that one call moves.
#![tactic(auto)]

mod files;
mod history;
mod input;
mod memory;
mod plan;
mod real;
mod sink;
mod source;

pub use files::{OpenError, Opener};
pub use history::History;
pub use input::MaybeClosed;
pub use memory::{MemFiles, MemSink, MemSource};
pub use real::{DiskFiles, StdSink, StdSource};
pub use sink::{Sink, WriteError, write_all};
pub use source::{Failed, Source};
