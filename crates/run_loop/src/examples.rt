//! Three small commands as examples of the trait `Work`. One reads no input, one reads lines of
//! text, and one reads bytes and refuses one of the bytes. The examples show that each of these
//! kinds of commands fits the loop over the input. `small_commands_report_environment` proves that
//! the small commands are lawful.

mod bytes_command;
mod example_runs;
mod laws;
mod lines_command;
mod reporting;

pub use bytes_command::BytesBut;
pub use example_runs::{run_bytes, run_lines, run_reporting};
pub use laws::small_commands_report_environment;
pub use lines_command::Lines;
pub use reporting::Reporting;
