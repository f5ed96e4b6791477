//! Follows paths in a value by a table of types, decides whether a candidate is a fault, and prints
//! faults.
//!
//! The crate owns `Tried` (a value with the number of a type of a table), `Near` and `NearPath` (a
//! mismatch near the root), and the functions that print faults. The text of a fault is defined in
//! `types_spec` (`VerdictText`).
//!
//! Promises: `walk` returns the value at the end of a path and the number of the value's type. If
//! the path leads nowhere, `walk` returns `None`. `step` follows one step of a path. `is_fault`
//! returns true if and only if the value has the fault at the type, and allocates no memory.
//! `fault_text` and `write_fault` print a fault of the value: the paths, the types and what was
//! found. If `find_near` returns a mismatch, the mismatch is the least fault. If `find_near`
//! returns `None`, nothing is known. `write_missed` prints a mismatch that was found without a
//! heap, and `write_near` prints a mismatch near the root. `texts_are_of_types`: The text of a
//! fault by type numbers equals the text by types.
//!
//! Leaves out: the search for the least fault (`check_heap`, `check_stream`), the `no` before the
//! fault on the line (`run_types`), and the text of a value (`text_print`). `is_fault` does not
//! decide whether a fault is the least.
#![tactic(auto)]

mod candidate_fault;
mod fault_printer;
pub mod laws;
mod missed;
mod near;
mod path_order;
mod path_steps;
mod tried;
mod value_description;

pub use candidate_fault::is_fault;
pub use fault_printer::{fault_text, write_fault, write_near};
pub use missed::write_missed;
pub use near::{Near, NearPath, find_near};
pub use path_steps::{step, walk};
pub use tried::Tried;
pub use value_description::write_object;
