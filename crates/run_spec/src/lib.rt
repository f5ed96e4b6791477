//! The specification of a run for commands in general, and the theorems about the specification.
//! The crate contains no code of a run.
//!
//! - `runs`: What a command is (`Commands`), what a call of `run` promises (`RunSpec`), and what
//!   follows from the promises.
//! - `exit_causes`: What each exit status means for commands that read their input, by tables
//!   (`Causes`).
//! - `command_sum`: The sum of two command sets (`command_sum`).
//! - `value_commands`: The commands whose items are values (`commands`).
//! - `exit_statuses`: What each status means for the commands on values: of the values, the files
//!   and the arguments.
//!
//! Promises: `lawful_commands`: lawful commands have one outcome for given arguments, files and
//! input. `promised`: for lawful commands, everything in `RunSpec` follows from the account of a
//! call. `causes_of_tables`: if the tables are exact, each status of a call has its cause, and each
//! cause leads to its status. `values_have_exit_statuses`: the tables of the commands on values are
//! exact. `command_sums_are_lawful`: the sum of two lawful command sets that share no request is
//! lawful. `commands_are_lawful`: the commands on values are lawful over each lawful language.
//!
//! Leaves out: code (`run_loop`, `session`), the commands that do not read values (`cmd_build`,
//! `cmd_gen`, `cmd_verify`, `cmd_certify`, `cmd_scan`), and the meaning of types (`run_types`).
//! Running out of memory is an outcome that no contract excludes in general.
#![tactic(auto)]

pub mod command_sum;
pub mod exit_causes;
pub mod exit_statuses;
pub mod runs;
pub mod value_commands;
