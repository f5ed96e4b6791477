//! Fetches and reads FILE, TYPE and SCRIPT, and finds the verdict on a value at the type that FILE
//! and TYPE denote.
//!
//! The crate owns `Requested`: a sound type over well-formed declarations with its table
//! (`TypeTable`), ready for checks. The crate also owns the language `declared_types`, which
//! defines what FILE, TYPE, PATH and SCRIPT mean.
//!
//! Promises:
//!
//! - `find_type` fetches FILE, and returns the requested type or the exit reason of the
//!   specification.
//! - `find_script` fetches SCRIPT, and returns the script or the exit reason of the specification.
//! - `Requested::holds`: the table is the table of the type, and the type is sound (`IsReady`).
//! - `find_verdict` returns `Yes` if the value has the type, and otherwise the least fault.
//! - `write_no` appends `no` and the least fault. If a small value has the fault near its root,
//!   `write_near_no` does so too; otherwise `write_near_no` appends nothing.
//! - `write_missed_no` appends `no` and a mismatch that was found without a heap.
//! - `write_bytes` writes the canonical bytes of a value.
//! - `declared_types_are_lawful`: each text parses in one way, and each value has one line at a
//!   type.
//!
//! Leaves out: the commands (`session`, and the command crates, for example `cmd_build`), and the
//! check and the writer (`check_heap`, `marshal_write`). The parsers of texts and certificates are
//! in `cmd_build` and `cmd_verify`.
#![tactic(auto)]

mod fetch;
mod gathered_file;
pub mod laws;
mod requested;
mod requested_texts;
mod type_verdict;
mod value_bytes;
mod value_check;

pub use fetch::{Fetch, fetch_file};
pub use gathered_file::{Gathered, InputEnd, LENGTH_LIMIT, store};
pub use requested::{Prepared, Requested};
pub use requested_texts::{find_script, find_type, path_exit, read_gathered};
pub use type_verdict::{find_fault, find_verdict, write_missed_no, write_near_no, write_no};
pub use value_bytes::{write_bytes, write_plain};
pub use value_check::check_type;
