//! The command `check --cert`: checks the values of the input and writes a certificate of the
//! values.
//!
//! - `spec`: The specification of the command (`certifying`): the file FILE, the certificate entry
//!   of a value by the value's number, where the run ends, and the statuses.
//! - `value_items`: Definitions and lemmas about values read so far, for every command whose items
//!   are values.
//! - `command`: The implementation of the command at declared types (`certify`, `Certifying`,
//!   `value_section`).
//!
//! Promises: `certify` has an account of the call by the specification, with the option `--skip`.
//! `value_section` checks a value and returns its certificate entry.
//! `declared_certificates_are_one`: Each value has one entry at a declared type.
//! `certifying_is_lawful`: If each value has one entry, the command is lawful.
//! `certifying_answers_once`: Arguments, files and input have at most one outcome.
//! `sections_have_exit_statuses`: The tables of what each status means are exact.
//! `causes_of_sections`: Each status of a call has its cause, and the statuses 5, 11 and 12 never
//! occur.
//!
//! Leaves out: making one entry (`cert_produce`), the check (`check_heap`), verification
//! (`cmd_verify`), and the theorem about both commands in sequence (`thm_certificates`).
#![tactic(auto)]

pub mod command;
pub mod spec;
pub mod value_items;
