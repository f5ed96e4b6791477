//! Makes exit reasons that hold the text of a refusal, and writes their lines to the error output.
//!
//! The crate owns `Error`: an exit reason, or a failed write to the output. The crate also owns the
//! functions that make an `Exit` for a refusal or failure, for example `refused_value`,
//! `split_value` and `unopened_file`.
//!
//! Promises:
//!
//! - `refused_value` returns the exit reason of a refused value.
//! - `split_value` returns the exit reason of an input that ends inside a value.
//! - `refused_type`, `refused_line`, `unopened_file` and `too_large_value` return the exit reasons
//!   of their cases.
//! - If memory runs out for the text of an exit reason, each of these functions returns the exit
//!   reason `Memory`.
//! - `report_exit` writes the line of an exit reason, if the exit reason has a line, and returns
//!   the status of the exit reason. If the line cannot be written completely, the status is
//!   `WriteFault`. If memory runs out for the line, `report_exit` reports that memory ran out.
//!
//! Leaves out: the definition of the lines and texts (`cli_spec`), and the point at which a run
//! ends (`run_loop`). The texts of faults in declarations are in `types_wellformed`, those of
//! faults in edits in `edit_values`.
#![tactic(auto)]

mod compat_text;
pub mod exit_constructors;
pub mod exit_line;
mod refusal_text;
pub mod report;
