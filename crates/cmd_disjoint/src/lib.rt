//! Proves that no request asks for two of the program's command sets; it has no code of a run.
//!
//! The commands on values (`run_spec`), `build`, `gen`, `verify`, `check --cert` and `scan` each
//! have a specification of their own. `session` combines the specifications with `command_sum`,
//! whose theorems require disjoint sets (`AreDisjoint`). Each function does nothing at run time:
//! the contract of the function is the theorem.
//!
//! Promises: no request asks for two commands of two different sets, with one function for each
//! pair of sets:
//!
//! - the commands on values and `gen`: `made_stands_disjoint`,
//! - the commands on values and `verify`: `certificates_stand_disjoint`,
//! - the commands on values and `check --cert`: `sections_stand_disjoint`,
//! - the commands on values and `scan`: `searches_stand_disjoint`,
//! - two of the other sets: a function whose name names the two sets, for example
//!   `made_stands_disjoint_from_texts` for `build` and `gen`.
//!
//! Leaves out: `build` and the commands on values (`building_stands_disjoint` of `cmd_build`), the
//! sum of command sets (`run_spec`), and the options `--skip` and `--only` (`opt_skip_only`). That
//! arguments ask for at most one request is `one_request` of `cli_args`.
#![tactic(auto)]

pub mod laws;
