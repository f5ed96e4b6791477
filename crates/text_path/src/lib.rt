//! Parses paths into a value, and scripts of edits.
//!
//! The crate owns the syntax of paths and scripts, the parsed script (`Script`, with `ScriptLine`,
//! `Action` and `Edit`), and the errors (`PathFault`, `ScriptFault`). A script is parsed line by
//! line. Each line is lexed on its own, blank lines only count, and the first faulty line decides.
//!
//! Promises: `read_path` returns the path that the text encodes, or the text's one error.
//! `read_script` returns the script that the text is, or the text's one error. `one_answer` and
//! `one_script_answer`: each text is a path or has an error, and each text is a script or has an
//! error, in exactly one way. `lines_in_time`: a line of a script copies only from values before
//! the edited value. `Script::lines_of` returns the lines for the value with a given number, in the
//! order of the script. `Script::last_use` returns the last value into which a part of a given
//! value is copied.
//!
//! Leaves out: what a path means in a value (`check_fault`), applying edits (`edit_values`),
//! literals after `=`, which are parsed at the type of the edited position (`text_literal`), and
//! scripts with decimals (`text_decimal`).
#![tactic(auto)]

mod edits;
mod graft_uses;
mod laws;
mod line_order;
mod line_prefix;
mod path_fault;
mod path_parser;
mod script_line_parser;
mod script_parser;

pub use edits::{Action, Edit, Script, ScriptFault, ScriptLine, ValueLines};
pub use laws::{lines_in_time, one_answer, one_script_answer};
pub use path_fault::PathFault;
pub use path_parser::read_path;
pub use script_parser::read_script;
