//! The specification of what a run prints and how the run ends: arguments, stages, exit reasons,
//! statuses.
//!
//! The crate owns:
//!
//! - the table of the command line, which describes the command line to `clap` (`command_set`),
//! - what arguments ask for (`Request`, `Asks`),
//! - the reasons why a run ends (`Exit`) with their lines, and the exit statuses (`Status`),
//! - the limits and options of reading (`Reading`) and printing (`Style`),
//! - the output of a run (`Output`, `Reply`, `Replies`).
//!
//! A language (`Language`) is a parameter, which defines what FILE, TYPE and SCRIPT mean.
//!
//! The stages of a run are, in order: arguments, PATH, FILE, TYPE, SCRIPT, and the values one by
//! one.
//!
//! Promises: `Status::code` returns the number of the status (`code_of`). Every other item is a
//! definition, given only in this crate. `ending_of` gives the output, error output and status of a
//! list of replies. `status_of` gives the status of an exit reason, and `exit_line` gives the line
//! of an exit reason.
//!
//! Leaves out: parsing the arguments (`cli_args`), building the lines (`cli_errors`), what a call
//! of `run` promises by these definitions (`run_spec`), and the meaning of declared types
//! (`run_types`).
#![tactic(auto)]

pub mod exit;
pub mod read_options;
pub mod status;
pub mod style;
