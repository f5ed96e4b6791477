//! The top call `run`: from arguments, input and files to output, error output and exit status.
//!
//! The crate owns the set of all commands of the program (`all_commands`). The crate also owns the
//! commands on values in code (`check`, `show`, `get`, `edit`, `same` and others), and the way from
//! a request to its code. For `check`, and for values that no line of an `edit` script concerns,
//! the bytes are first checked without a heap while they arrive. If the check without a heap is
//! inconclusive, the value is read into a heap.
//!
//! Promises: the contract of `run` is `IsRun`. `run_spec`: the call satisfies `RunSpec` for all
//! commands: an account of what was read and written, the whole answer to what was read, and failed
//! calls. `headline`: an honest call has the outcome of the known contents. `environment`: what the
//! statuses of the environment mean. `causes`: for arguments that ask for a command on values, each
//! status has its cause by exact tables. `causes_of_texts`, `causes_of_certificates`,
//! `causes_of_sections`, `causes_of_positions` and `causes_of_made`: each status of a command of
//! another kind has its cause by exact tables. `canonical`: if the input is canonical and its
//! values have the type, an honest call of `edit` with an empty script outputs the input unchanged
//! (`LeavesCanonical`). `all_commands_are_lawful`: all commands together are lawful.
//! `all_commands_have_one_outcome`: arguments, files and input have one outcome.
//!
//! Leaves out: the real input, files and outputs (`omarshal`), and the loop (`run_loop`). The
//! commands `build`, `gen`, `verify`, `check --cert` and `scan` are in `cmd_build`, `cmd_gen`,
//! `cmd_verify`, `cmd_certify` and `cmd_scan`. Theorems about two calls in sequence are in
//! `thm_roundtrip` and `thm_certificates`. Time and memory are not promised.
#![tactic(auto)]

mod build_command;
mod commands;
mod earlier;
mod edit_lines;
mod fast_check;
mod input_values;
mod session_state;
mod top;
mod value_output;

pub use commands::{
    all_commands_are_lawful, all_commands_have_one_outcome, all_commands_have_parts,
    all_commands_keep_run_spec, statuses_of_made_have_causes, statuses_of_positions_have_causes,
    statuses_of_texts_have_causes, statuses_of_values_have_causes, values_have_headline,
    values_have_one_outcome,
};
pub use top::run;
