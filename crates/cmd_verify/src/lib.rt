//! The command `verify`: checks a certificate file against the values of the input.
//!
//! - `spec`: The specification of the command (`verifying`): the files FILE and CERT, what the
//!   certificate entry with a value's number shows of the value, where the run ends, and the
//!   statuses.
//! - `command`: The implementation of the command at declared types (`command::verify`,
//!   `Certified`).
//!
//! Promises: `command::verify` has an account of the call by the specification, with the option
//! `--skip`. `find_certificate` fetches CERT and returns its entries, or the exit reason.
//! `declared_sections_are_read_once`: A certificate is read in one way, and an entry shows one
//! thing of a value at a type. `verifying_is_lawful`: If certificates are read once, the command is
//! lawful. `verifying_answers_once`: Arguments, files and input have at most one outcome.
//! `certificates_have_exit_statuses`: The tables of what each status means are exact.
//! `causes_of_certificates`: Each status of a call has its cause, and the statuses 5 and 11 never
//! occur.
//!
//! Leaves out: the verifier of one entry (`cert_verify`), the format (`cert_format`), writing
//! certificates (`cmd_certify`), and the theorem that written certificates are accepted
//! (`thm_certificates`).
#![tactic(auto)]

pub mod command;
pub mod spec;
