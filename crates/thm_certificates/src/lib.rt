//! The theorem that `verify` accepts what `check --cert` wrote; it has no code of a run.
//!
//! - `certified`: The theorem for the two commands alone.
//! - `all_commands`: The theorem for two calls of all commands of the program.
//!
//! The crate owns the definition of two calls of which the second verifies the output of the first
//! (`Certifies`, `Verifies`, `ConfirmsAll`). Each function does nothing at run time: the contract
//! of the function is the theorem.
//!
//! Promises:
//!
//! - `written_certificates_are_accepted`: suppose `check --cert` read an input to the end. Suppose
//!   `verify` gets the same input, FILE and TYPE, the output of `check --cert` as CERT, and a limit
//!   that is no smaller. Then `verify` prints the lines of `check`, and ends with the status of
//!   `check --cert`.
//! - `all_commands_confirm_certificates`: the theorem for two calls of the whole program.
//! - `certified_sections_are_shown`: the certificate entry of a value shows the line that `check`
//!   prints for the value.
//!
//! Conditions: in the call of `verify`, no call on the environment fails and memory does not run
//! out. `check --cert` begins at the first byte of its input.
//!
//! Leaves out: the theorem about one certificate entry (`cert_produce`), and runs of `check --cert`
//! with `--skip`.
#![tactic(auto)]

pub mod all_commands;
pub mod certified;
