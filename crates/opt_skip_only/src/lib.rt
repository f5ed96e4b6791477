//! Adds the options `--skip` (pass over the first bytes) and `--only` (report one item) to any
//! command.
//!
//! - `skip_spec`: Specifies commands that pass over the first bytes of their input (`skipping`).
//! - `only_spec`: Specifies commands that report one item only (`only_command`).
//! - `skip`: Wraps a command in a command that skips (`SkipCommand`).
//! - `only`: Wraps a command that counts its items in a command that selects (`OnlyCommand`).
//!
//! Promises:
//!
//! - `skipping_is_lawful` and `only_command_is_lawful`: lawful commands are lawful with the option.
//! - `skipping_has_exit_statuses` and `only_command_has_exit_statuses`: if the tables of exit
//!   statuses of commands are exact, then the tables of the commands with the option are exact.
//! - `skipping_run_spec_at_once`: if the arguments skip nothing, then the specification of a run
//!   with the option implies the specification without the option.
//! - `only_command_run_spec_of_each`: if the arguments ask for every item, then the specification
//!   of a run with `--only` implies the specification without `--only`.
//! - `skipping_stands_disjoint` and `only_command_stands_disjoint`: if commands are disjoint from a
//!   set, then the commands with the option are disjoint from the set.
//! - `SkipCommand` and `OnlyCommand` implement `Work` for the specified commands.
//!
//! Leaves out: parsing the options (`cli_args`), the loop (`run_loop`), and which commands have
//! which option (`session`, `cmd_verify`, `cmd_certify`). No crate below depends on the options.
#![tactic(auto)]

pub mod only;
pub mod only_spec;
pub mod skip;
pub mod skip_spec;
