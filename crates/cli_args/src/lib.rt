//! Reads the command line: from the arguments of the program to a request.
//!
//! The crate owns `Request`, the request with the limit, PATH, FILE, TYPE, SCRIPT and options that
//! were given. The arguments are described once, by the table of `cli_spec` (`command_set`). `clap`
//! gets each row of the table, and the results are read back by the same rows.
//!
//! Promises: `read_arguments` returns the request for which the arguments ask. If the arguments ask
//! for nothing, by the definitions `Asks` and `IsUsage` of `cli_spec`, `read_arguments` returns
//! `Usage`. `one_request`: arguments ask for at most one request. `plain_arguments_ask`: arguments
//! in the plain form are accepted and ask for what they say. `accepted_arguments_are_read`:
//! arguments in which `clap` finds no error are read as some request.
//!
//! Leaves out: the table and the definitions (`cli_spec`), running a request (`session`), and
//! parsing PATH (`text_path`). The texts of `clap`'s help and error messages are not specified. If
//! memory runs out, nothing is promised of the request.
#![tactic(auto)]

mod command_set;
pub mod laws;
mod request_parser;

pub use request_parser::{ArgumentsError, Request, read_arguments};
