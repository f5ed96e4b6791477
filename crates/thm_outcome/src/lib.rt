//! The theorem that a run has an outcome; it has no code of a run.
//!
//! The crate owns the definitions of total commands (`AreTotal`) and of a total language
//! (`IsTotal`). Each function does nothing at run time: the contract of the function is the
//! theorem.
//!
//! Promises:
//!
//! - `total_commands_have_one_outcome`: suppose commands are lawful, and total at some requests.
//!   Suppose each request of the arguments is one of these requests. Then the arguments, files and
//!   an input have exactly one outcome.
//! - `value_commands_are_total`: the commands on values are total over each total language.
//! - `untyped_commands_are_total`: `dump` and `same` are total over each language.
//! - `command_sums_are_total`, `skipping_is_total` and `only_command_is_total`: sums of total
//!   commands are total, and total commands are total with `--skip` and with `--only`.
//! - `value_commands_have_one_outcome`: over a lawful and total language, the commands on values
//!   with `--skip` and `--only` have exactly one outcome.
//! - `untyped_commands_have_one_outcome`: over a lawful language, `dump` and `same` with `--skip`
//!   and `--only` have exactly one outcome.
//! - `dump_and_same_have_one_outcome`: the same over the language of declared types, without a
//!   premise.
//! - `searching_is_total`: `scan` is total at each request that is a search.
//! - `searching_has_one_outcome` and `scan_has_one_outcome`: `scan` has exactly one outcome. No
//!   premise is needed.
//! - `gen_spec_is_total` and `gen_spec_has_one_outcome`: suppose a language reads or refuses each
//!   text of a type, and each value has a line. Then `gen` is total. If the language is also
//!   lawful, then `gen` has exactly one outcome.
//! - `gen_has_one_outcome`: over the language of declared types, `gen` has exactly one outcome if
//!   each value has a line (`HasLines`).
//! - `declarations_are_read_or_refused`, `types_are_read_or_refused`, `scripts_are_read_or_refused`
//!   and `paths_are_read_or_refused`: in the language of declared types, each text is read or
//!   refused.
//! - `declared_commands_have_one_outcome`: the commands on values with `--skip` and `--only` have
//!   exactly one outcome if each value has a line (`HasLines`) and the bytes of an edit or a reason
//!   (`HasBytes`).
//! - `all_commands_have_one_outcome_of_dump_and_same`,
//!   `all_commands_have_one_outcome_of_values`, `all_commands_have_one_outcome_of_scan` and
//!   `all_commands_have_one_outcome_of_gen`: the laws on one outcome for the set of all commands.
//!
//! Conditions: the files are given as a map, and the input is a list of bytes. Each existence is
//! stated as a double negation (`NotNone`): it is not so that there is no outcome.
//!
//! Leaves out: `HasLines` and `HasBytes` of the language of declared types, and that `build`,
//! `verify` and `check --cert` are total.
#![tactic(auto)]

pub mod declared_laws;
pub mod laws;
